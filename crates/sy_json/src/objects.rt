//! JSON objects and arrays.

use serde_json::{Map, Value};
use std::alloc::{AllocError, Global};
use std::str;
use sy_report::texts::json::append_character;
use sy_report::texts::printed::is_plain;

// A document whose texts have no character that a terminal would take for more: such a one is written as `\u009b`.
fn escaped(alloc: Global, document: Vec<u8>) -> Result<Vec<u8>, AllocError> {
    if is_plain(document.as_slice()) {
        return Ok(document);
    }
    let mut text = Vec::new(alloc);
    if let Ok(characters) = str::from_utf8(document.as_slice()) {
        for character in characters.chars() {
            append_character(&mut text, character)?;
        }
    }
    Ok(text)
}

/// An object that is built member by member. Where memory runs out what follows is left out, which the end tells.
#[derive(Drop)]
pub struct Members {
    alloc: Global,
    map: Map<String, Value>,
    is_cut: bool,
}

/// An array that is built element by element.
#[derive(Drop)]
pub struct Elements {
    alloc: Global,
    list: Vec<Value>,
    is_cut: bool,
}

impl Members {
    /// No members.
    pub fn new(alloc: Global) -> Members {
        Members {
            alloc,
            map: Map::new(alloc),
            is_cut: false,
        }
    }

    fn insert(&mut self, name: &str, value: Value) {
        match serde_json::put(&mut self.map, self.alloc, name, value) {
            Ok(()) => {}
            Err(_) => self.is_cut = true,
        }
    }

    /// A text. Each longest piece of it that is no UTF-8 becomes U+FFFD.
    pub fn text(&mut self, name: &str, bytes: &[u8]) {
        match String::from_utf8_lossy(self.alloc, bytes) {
            Ok(text) => self.insert(name, Value::String(text)),
            Err(_) => self.is_cut = true,
        }
    }

    /// A number.
    pub fn number(&mut self, name: &str, number: u64) {
        self.insert(name, Value::from(number));
    }

    /// A number, or null.
    pub fn number_if_any(&mut self, name: &str, number: Option<u64>) {
        match number {
            Some(number) => self.number(name, number),
            None => self.null(name),
        }
    }

    /// True or false.
    pub fn truth(&mut self, name: &str, is_true: bool) {
        self.insert(name, Value::Bool(is_true));
    }

    /// Null.
    pub fn null(&mut self, name: &str) {
        self.insert(name, Value::Null);
    }

    /// An array.
    pub fn array(&mut self, name: &str, elements: Elements) {
        let Elements { list, is_cut, .. } = elements;
        self.insert(name, Value::Array(list));
        self.is_cut = self.is_cut || is_cut;
    }

    /// An array, or null.
    pub fn array_if_any(&mut self, name: &str, elements: Option<Elements>) {
        match elements {
            Some(elements) => self.array(name, elements),
            None => self.null(name),
        }
    }

    /// An object.
    pub fn object(&mut self, name: &str, members: Members) {
        let Members { map, is_cut, .. } = members;
        self.insert(name, Value::Object(map));
        self.is_cut = self.is_cut || is_cut;
    }

    /// The text of the object in one line, or that memory ran out.
    pub fn finish(self) -> Result<Vec<u8>, AllocError> {
        let Members { alloc, map, is_cut } = self;
        if is_cut {
            return Err(AllocError);
        }
        let mut text = escaped(alloc, Value::Object(map).to_vec(alloc)?)?;
        text.push(b'\n')?;
        Ok(text)
    }
}

impl Elements {
    /// No elements.
    pub fn new(alloc: Global) -> Elements {
        Elements {
            alloc,
            list: Vec::new(alloc),
            is_cut: false,
        }
    }

    /// How many there are.
    pub fn len(&self) -> u64 {
        self.list.len() as u64
    }

    fn push(&mut self, value: Value) {
        match serde_json::push(&mut self.list, value) {
            Ok(()) => {}
            Err(_) => self.is_cut = true,
        }
    }

    /// A text.
    pub fn text(&mut self, bytes: &[u8]) {
        match String::from_utf8_lossy(self.alloc, bytes) {
            Ok(text) => self.push(Value::String(text)),
            Err(_) => self.is_cut = true,
        }
    }

    /// An object.
    pub fn object(&mut self, members: Members) {
        let Members { map, is_cut, .. } = members;
        self.push(Value::Object(map));
        self.is_cut = self.is_cut || is_cut;
    }
}
