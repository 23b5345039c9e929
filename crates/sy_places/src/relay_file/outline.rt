//! The objects of a script, in the order of the text.

use std::alloc::{AllocError, Global};
use sy_rules::{Item, outline};
use sy_script::tree::{ObjectKind, Param, Script, Span};

/// What an object is, by its first word.
#[derive(Clone, Copy, PartialEq, Eq)]
pub enum ObjectWord {
    Module,
    Global,
    MainQueue,
    Input,
    Ruleset,
    Action,
}

/// An object: the place of its first word, and its parameters.
#[derive(Clone, Copy)]
pub struct Object<'s> {
    pub word: ObjectWord,
    pub start: usize,
    pub params: &'s [Param],
}

fn word_of(kind: ObjectKind) -> ObjectWord {
    match kind {
        ObjectKind::Module => ObjectWord::Module,
        ObjectKind::Global => ObjectWord::Global,
        ObjectKind::MainQueue => ObjectWord::MainQueue,
        ObjectKind::Input => ObjectWord::Input,
    }
}

fn object_at<'s>(word: ObjectWord, span: Span, params: &'s [Param]) -> Option<Object<'s>> {
    Some(Object {
        word,
        start: span.start,
        params,
    })
}

// The object that an item of a script is.
fn object_in<'s>(item: Item<'s>) -> Option<Object<'s>> {
    match item {
        Item::Object(span, kind, params) => object_at(word_of(kind), span, params),
        Item::Ruleset(span, params) => object_at(ObjectWord::Ruleset, span, params),
        Item::Action(span, params) => object_at(ObjectWord::Action, span, params),
        Item::Call(_, _) | Item::Test(_) => None,
    }
}

/// The objects of a script. It goes as deep as the script nests.
pub fn outline_script<'s>(
    alloc: Global,
    script: &'s Script,
) -> Result<Vec<Object<'s>>, AllocError> {
    let items = outline(alloc, script)?;
    let mut objects = Vec::new(alloc);
    for item in items.as_slice() {
        if let Some(object) = object_in(*item) {
            objects.push(object)?;
        }
    }
    Ok(objects)
}

/// The object of a word by its number among those of that word, counted from 0.
pub fn object_of<'s>(objects: &[Object<'s>], word: ObjectWord, number: u32) -> Option<Object<'s>> {
    let mut left = number;
    for object in objects {
        if object.word == word {
            if left == 0 {
                return Some(*object);
            }
            left -= 1;
        }
    }
    None
}

/// The value that the parameters give a name.
pub fn value_of<'s>(params: &'s [Param], name: &[u8]) -> Option<&'s [u8]> {
    for param in params {
        if param.name.text.as_slice().eq_ignore_ascii_case(name) {
            return Some(param.value.bytes.as_slice());
        }
    }
    None
}
