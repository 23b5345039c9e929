//! The classes that a survey is about.

use std::alloc::{AllocError, Global};
use sy_select::{FaultCode, Selector};

/// The classes that are asked for where nothing says otherwise.
pub const DEFAULT: &[u8] = b"auth,authpriv.*";

/// A selector of the same classes as this, in which a comma also stands between parts: `auth.*,mail.info`.
pub fn selector_text(alloc: Global, words: &[u8]) -> Result<Vec<u8>, AllocError> {
    let mut text = Vec::new(alloc);
    let mut is_level = false;
    for byte in words {
        if *byte == b'.' {
            is_level = true;
        }
        if *byte == b';' {
            is_level = false;
        }
        if *byte == b',' && is_level {
            text.push(b';')?;
            is_level = false;
        } else {
            text.push(*byte)?;
        }
    }
    Ok(text)
}

/// Whether a text is a selector; it is never one where memory ran out.
pub fn is_selector(alloc: Global, text: &[u8]) -> Result<bool, AllocError> {
    match Selector::read(alloc, text) {
        Ok(_) => Ok(true),
        Err(fault) => match fault.code {
            FaultCode::NoMemory => Err(AllocError),
            _ => Ok(false),
        },
    }
}
