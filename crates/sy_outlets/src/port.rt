//! An input, as what is kept of it names it.

/// An input of a relay, by its number and its port.
#[derive(Clone, Copy)]
pub struct Port {
    pub input: u32,
    pub port: u16,
}
