//! Numbers in tables.
ghost use Rattle.std.specs.Prelude.{◌≡◌, ◌+◌, IfOk};

use std::alloc::AllocError;

/// How many actions and tests of the file stand before a statement.
#[derive(Clone, Copy)]
pub struct Counts {
    pub actions: u32,
    pub tests: u32,
}

/// A number of a table. A table's numbers have 32 bits, and more of anything is more than memory is for.
pub fn as_u32(count: usize) -> Result<u32, AllocError>
    ensures { IfOk result (λ n. n ≡ count) }
{
    match u32::try_from(count) {
        Ok(number) => Ok(number),
        Err(_) => Err(AllocError),
    }
}

/// The number after this one.
pub fn next(number: u32) -> Result<u32, AllocError>
    ensures { IfOk result (λ n. n ≡ number + 1) }
{
    match number.checked_add(1) {
        Some(next) => Ok(next),
        None => Err(AllocError),
    }
}
