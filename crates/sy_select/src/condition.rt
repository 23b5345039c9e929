//! Tests of a message: the smallest parts of an expression, and what they say.
ghost use Rattle.std.specs.Prelude.{◌≡◌};
ghost use Rattle.sy_select.specs.Properties as spec;

use crate::names::{facility_text, severity_text};
use crate::property::{Field, Part};
use crate::selector::Selector;
use memchr::memmem;
use sy_script::Items;
use sy_wire::{Class, Message};

/// How texts are compared.
#[derive(Clone, Copy)]
pub enum Match {
    Equal,
    NotEqual,
    Contains,
    StartsWith,
}

/// How numbers are compared.
#[derive(Clone, Copy)]
pub enum Relation {
    Equal,
    NotEqual,
    Less,
    AtMost,
    Greater,
    AtLeast,
}

/// A test that the class of a message decides.
#[derive(Drop)]
pub enum ClassTest {
    Text(Part, Match, Items<u8>),
    /// A number above 255 is kept as 255, since no facility and no severity is as large.
    Number(Part, Relation, u8),
    /// `prifilt(..)`
    Selected(Selector),
}

/// A test of a message.
#[derive(Drop)]
pub enum Test {
    /// Of a field, of which the class says nothing.
    Field(Field, Match, Items<u8>),
    Class(ClassTest),
}

fn field_text(field: Field, message: &Message) -> &[u8]
    ensures { result.now ≡ spec.field_text field message.now }
{
    match field {
        Field::Msg => message.msg(),
        Field::RawMsg => message.raw(),
        Field::Hostname => message.hostname(),
        Field::AppName => message.app_name(),
        Field::ProcId => message.procid(),
        Field::MsgId => message.msgid(),
    }
}

fn part_text(part: Part, class: Class) -> &'static [u8]
    ensures { result.now ≡ spec.part_text part class }
{
    match part {
        Part::Facility => facility_text(class),
        Part::Severity => severity_text(class),
    }
}

fn part_number(part: Part, class: Class) -> u8
    ensures { result ≡ spec.part_number part class }
{
    match part {
        Part::Facility => class.facility,
        Part::Severity => class.severity,
    }
}

fn contains(text: &[u8], other: &[u8]) -> bool
    ensures { result ≡ spec.contains text.now other.now }
{
    memmem::find(text, other).is_some()
}

fn matches(text: &[u8], how: Match, other: &[u8]) -> bool
    ensures { result ≡ spec.matches how text.now other.now }
{
    match how {
        Match::Equal => text == other,
        Match::NotEqual => text != other,
        Match::Contains => contains(text, other),
        Match::StartsWith => text.starts_with(other),
    }
}

fn relates(number: u8, relation: Relation, other: u8) -> bool
    ensures { result ≡ spec.relates relation number other }
{
    match relation {
        Relation::Equal => number == other,
        Relation::NotEqual => number != other,
        Relation::Less => number < other,
        Relation::AtMost => number <= other,
        Relation::Greater => number > other,
        Relation::AtLeast => number >= other,
    }
}

/// Whether a class meets a test that it decides.
pub(crate) fn of_class(test: &ClassTest, class: Class) -> bool
    ensures { result ≡ spec.of_class test.now class }
{
    match test {
        ClassTest::Text(part, how, other) => {
            matches(part_text(*part, class), *how, other.as_slice())
        }
        ClassTest::Number(part, relation, other) => {
            relates(part_number(*part, class), *relation, *other)
        }
        ClassTest::Selected(selector) => selector.matches(class),
    }
}

/// Whether a message meets a test.
pub(crate) fn says(test: &Test, message: &Message) -> bool
    ensures { result ≡ spec.says message.now test.now }
{
    match test {
        Test::Field(field, how, other) => {
            matches(field_text(*field, message), *how, other.as_slice())
        }
        Test::Class(test) => of_class(test, message.class()),
    }
}
