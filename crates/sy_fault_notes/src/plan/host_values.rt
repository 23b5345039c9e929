//! What parameters for the host take, which a plan doesn't know: one with another value, or given twice, stays in its text.

use std::alloc::AllocError;
use sy_places::relay_file::outline::{Object, ObjectWord, value_of};
use sy_report::texts::note::Note;
use sy_report::texts::parts::Part;

/// A parameter for the host, what it takes, and how it is written.
#[derive(Clone, Copy)]
struct HostValue {
    name: &'static [u8],
    takes: &'static str,
    example: &'static str,
}

/// Those of an action of type `omfile`.
static OF_ARCHIVES: [HostValue; 9] = [
    HostValue {
        name: b"sync",
        takes: "on or off",
        example: "sync=\"on\"",
    },
    HostValue {
        name: b"fileCreateMode",
        takes: "four octal digits, of which the first is 0",
        example: "fileCreateMode=\"0640\"",
    },
    HostValue {
        name: b"fileOwner",
        takes: "the name of a user",
        example: "fileOwner=\"syslog\"",
    },
    HostValue {
        name: b"fileGroup",
        takes: "the name of a group",
        example: "fileGroup=\"adm\"",
    },
    HostValue {
        name: b"fileOwnerNum",
        takes: "the number of a user, from 0 to 4294967294",
        example: "fileOwnerNum=\"1000\"",
    },
    HostValue {
        name: b"fileGroupNum",
        takes: "the number of a group, from 0 to 4294967294",
        example: "fileGroupNum=\"4\"",
    },
    HostValue {
        name: b"createDirs",
        takes: "on or off",
        example: "createDirs=\"on\"",
    },
    HostValue {
        name: b"fileType",
        takes: "any or regular",
        example: "fileType=\"any\"",
    },
    HostValue {
        name: b"escapeControlCharacters",
        takes: "on or off",
        example: "escapeControlCharacters=\"on\"",
    },
];

/// Those of an input, and of the module `imtcp`.
static OF_RECEIVERS: [HostValue; 5] = [
    HostValue {
        name: b"maxSessions",
        takes: "a number from 1 to 1000000",
        example: "maxSessions=\"10000\"",
    },
    HostValue {
        name: b"keepAlive",
        takes: "on or off",
        example: "keepAlive=\"on\"",
    },
    HostValue {
        name: b"keepAlive.time",
        takes: "a number of seconds from 1 to 32767",
        example: "keepAlive.time=\"60\"",
    },
    HostValue {
        name: b"keepAlive.interval",
        takes: "a number of seconds from 1 to 32767",
        example: "keepAlive.interval=\"10\"",
    },
    HostValue {
        name: b"keepAlive.probes",
        takes: "a number from 1 to 127",
        example: "keepAlive.probes=\"6\"",
    },
];

fn is_value(object: Object<'_>, name: &[u8], value: &[u8]) -> bool {
    value_of(object.params, name) == Some(value)
}

// Those that an object takes.
fn values_of(object: Object<'_>) -> &'static [HostValue] {
    match object.word {
        ObjectWord::Input => &OF_RECEIVERS,
        ObjectWord::Module if is_value(object, b"load", b"imtcp") => &OF_RECEIVERS,
        ObjectWord::Action if is_value(object, b"type", b"omfile") => &OF_ARCHIVES,
        _ => &[],
    }
}

/// Puts the names of those that an object takes behind others.
pub fn append_host_names(
    names: &mut Vec<&'static [u8]>,
    object: Object<'_>,
) -> Result<(), AllocError> {
    for value in values_of(object) {
        names.push(value.name)?;
    }
    Ok(())
}

/// Puts what a parameter for the host takes, where the object has it, and answers whether it does.
pub fn push_host_value(note: &mut Note, object: Object<'_>, name: &[u8]) -> bool {
    for value in values_of(object) {
        if value.name.eq_ignore_ascii_case(name) {
            note.why.append(&[
                Part::Text(value.name),
                Part::Text(b" takes "),
                Part::Text(value.takes.as_bytes()),
                Part::Text(b", once"),
            ]);
            note.change.say(value.example);
            return true;
        }
    }
    false
}
