//! The names of facilities and severities.

ghost use Rattle.std.specs.Prelude.{◌≡◌, ◌<◌, map, IfSome};
ghost use Rattle.std.specs.Str.{str_eq_ignore_ascii_case};
ghost use Rattle.sy_select.specs.Names as spec;

use sy_wire::Class;

/// The names of facilities, each with its number. The first of a number is the one that its text shows.
static FACILITIES: [(&[u8], u8); 21] = [
    (b"kern", 0),
    (b"user", 1),
    (b"mail", 2),
    (b"daemon", 3),
    (b"auth", 4),
    (b"security", 4),
    (b"syslog", 5),
    (b"lpr", 6),
    (b"news", 7),
    (b"uucp", 8),
    (b"cron", 9),
    (b"authpriv", 10),
    (b"ftp", 11),
    (b"local0", 16),
    (b"local1", 17),
    (b"local2", 18),
    (b"local3", 19),
    (b"local4", 20),
    (b"local5", 21),
    (b"local6", 22),
    (b"local7", 23),
];

/// The names of severities, each with its number.
static SEVERITIES: [(&[u8], u8); 11] = [
    (b"emerg", 0),
    (b"panic", 0),
    (b"alert", 1),
    (b"crit", 2),
    (b"err", 3),
    (b"error", 3),
    (b"warning", 4),
    (b"warn", 4),
    (b"notice", 5),
    (b"info", 6),
    (b"debug", 7),
];

/// The names that a selector has for facilities, each with its number, by rising numbers. The first of a number is its text.
pub fn facility_names() -> &'static [(&'static [u8], u8)]
    ensures { map (λ k. (k.0.now, k.1)) result.now ≡ spec.facilities }
{
    &FACILITIES
}

/// The names that a selector has for severities, each with its number, by rising numbers. The first of a number is its text.
pub fn severity_names() -> &'static [(&'static [u8], u8)]
    ensures { map (λ k. (k.0.now, k.1)) result.now ≡ spec.severities }
{
    &SEVERITIES
}

fn same_name(a: &[u8], b: &[u8]) -> bool
    ensures { result ≡ str_eq_ignore_ascii_case a.now b.now }
{
    a.eq_ignore_ascii_case(b)
}

fn number_of(mut table: &[(&[u8], u8)], name: &[u8]) -> Option<u8>
    ensures { result ≡ spec.number_of (map (λ k. (k.0.now, k.1)) table.entry.now) name.now }
{
    while let [entry, rest @ ..] = table {
        if same_name(entry.0, name) {
            return Some(entry.1);
        }
        table = rest;
    }
    None
}

/// The facility of a name, without regard to the case of ASCII letters.
#[tactic(auto, unfolding(crate::specs::Names::facility_of))]
pub fn facility_of(name: &[u8]) -> Option<u8>
    ensures value { result ≡ spec.facility_of name.now }
    ensures bound { IfSome result (λ f. f < 24) }
{
    number_of(&FACILITIES, name)
}

/// The severity of a name, without regard to the case of ASCII letters.
#[tactic(auto, unfolding(crate::specs::Names::severity_of))]
pub fn severity_of(name: &[u8]) -> Option<u8>
    ensures value { result ≡ spec.severity_of name.now }
    ensures bound { IfSome result (λ s. s < 8) }
{
    number_of(&SEVERITIES, name)
}

/// The text of a class's facility: its first name, or its number in decimal where it has none.
#[tactic(auto, unfolding(crate::specs::Names::facility_text))]
pub fn facility_text(class: Class) -> &'static [u8]
    ensures { result.now ≡ spec.facility_text class.facility }
{
    match class.facility {
        0 => b"kern",
        1 => b"user",
        2 => b"mail",
        3 => b"daemon",
        4 => b"auth",
        5 => b"syslog",
        6 => b"lpr",
        7 => b"news",
        8 => b"uucp",
        9 => b"cron",
        10 => b"authpriv",
        11 => b"ftp",
        12 => b"12",
        13 => b"13",
        14 => b"14",
        15 => b"15",
        16 => b"local0",
        17 => b"local1",
        18 => b"local2",
        19 => b"local3",
        20 => b"local4",
        21 => b"local5",
        22 => b"local6",
        23 => b"local7",
        _ => unreachable!(),
    }
}

/// The text of a class's severity: its first name.
#[tactic(auto, unfolding(crate::specs::Names::severity_text))]
pub fn severity_text(class: Class) -> &'static [u8]
    ensures { result.now ≡ spec.severity_text class.severity }
{
    match class.severity {
        0 => b"emerg",
        1 => b"alert",
        2 => b"crit",
        3 => b"err",
        4 => b"warning",
        5 => b"notice",
        6 => b"info",
        7 => b"debug",
        _ => unreachable!(),
    }
}
