//! Which tests and selectors a relay reads.

use std::alloc::{AllocError, Global};
use sy_script::tree::{Script, Stmt, Top};
use sy_script::{FaultCode, read_script};
use sy_select::{Expr, Selector};

// Whether the test of the first statement of a script is read.
fn is_first_readable(alloc: Global, script: &Script) -> Result<bool, AllocError> {
    let Some(Top::Stmt(Stmt::If(test, _, _))) = script.tops.get(0) else {
        return Ok(false);
    };
    match Expr::read(alloc, test) {
        Ok(_) => Ok(true),
        Err(fault) => match fault.code {
            sy_select::FaultCode::NoMemory => Err(AllocError),
            _ => Ok(false),
        },
    }
}

/// Whether a relay reads a test.
pub(crate) fn is_test(alloc: Global, test: &[u8]) -> Result<bool, AllocError> {
    let mut text = Vec::new(alloc);
    text.extend_from_slice(b"if ")?;
    text.extend_from_slice(test)?;
    text.extend_from_slice(b" then stop")?;
    match read_script(alloc, text.as_slice()) {
        Ok(script) => is_first_readable(alloc, &script),
        Err(fault) => match fault.code {
            FaultCode::NoMemory => Err(AllocError),
            _ => Ok(false),
        },
    }
}

/// Whether it reads a selector.
pub(crate) fn is_selector(alloc: Global, text: &[u8]) -> Result<bool, AllocError> {
    match Selector::read(alloc, text) {
        Ok(_) => Ok(true),
        Err(fault) => match fault.code {
            sy_select::FaultCode::NoMemory => Err(AllocError),
            _ => Ok(false),
        },
    }
}
