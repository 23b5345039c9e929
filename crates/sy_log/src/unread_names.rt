//! The files that keep a relay's frames without a message, by their names.
ghost use Rattle.std.specs.Prelude.{◌≡◌, Some, IfOk, OnOk, map, option_map, slice_get};
ghost use Rattle.std.specs.List.{position};
ghost use Rattle.std.specs.Str.{bytes_eq};
ghost use Rattle.sy_log.specs.internal.Names.{KeepsNames};
ghost use Rattle.sy_log.specs.UnreadFiles as spec;

use std::alloc::{AllocError, Global};
use sy_rules::Input;

/// The unread files of a relay, and which of them keeps the frames of each of its inputs.
#[derive(Drop)]
pub struct UnreadNames<'a> {
    /// each name once, with the one that is given for all first
    pub names: Vec<&'a [u8]>,
    /// of each input, in their order, where there is one
    pub of_inputs: Vec<Option<usize>>,
}

/// The name of the file that keeps an input's frames without a message, where there is one: the one that it names, or else the one that is given
/// for all.
pub fn unread_file<'a>(input: &'a Input, given: Option<&'a [u8]>) -> Option<&'a [u8]>
    ensures { option_map (λ name. name.now) result ≡ spec.unread_file (option_map (λ name. name.now) given.entry) input.now }
{
    match &input.unread_file {
        Some(own) => Some(own.as_slice()),
        None => given,
    }
}

// The place of a name among these.
fn place_among(names: &[&[u8]], name: &[u8]) -> Option<usize>
    ensures { result ≡ position (λ n. bytes_eq n.now name.now) names.now }
{
    names.iter().position(|other| *other == name)
}

// The place of a name among these, of which it becomes the last where it is none of them.
fn place_of<'a>(names: &mut Vec<&'a [u8]>, name: &'a [u8]) -> Result<usize, AllocError>
    ensures there { IfOk result (λ place. slice_get (map (λ n. n.now) names.new.items) place ≡ Some name.entry.now) }
    ensures kept { OnOk result (KeepsNames (map (λ n. n.now) names.old.items) (map (λ n. n.now) names.new.items)) }
{
    if let Some(place) = place_among(names.as_slice(), name) {
        return Ok(place);
    }
    let place = names.len();
    names.push(name)?;
    Ok(place)
}

// The place of an input's file among these names, where there is one.
fn file_of<'a>(
    names: &mut Vec<&'a [u8]>,
    input: &'a Input,
    given: Option<&'a [u8]>,
) -> Result<Option<usize>, AllocError>
    ensures there { IfOk result (λ file. option_map (slice_get (map (λ n. n.now) names.new.items)) file
        ≡ option_map Some (spec.unread_file (option_map (λ n. n.now) given.entry) input.entry.now)) }
    ensures kept { OnOk result (KeepsNames (map (λ n. n.now) names.old.items) (map (λ n. n.now) names.new.items)) }
{
    match unread_file(input, given) {
        Some(name) => Ok(Some(place_of(names, name)?)),
        None => Ok(None),
    }
}

/// The unread files of a relay with these inputs, where that one is given for all that name none.
pub fn unread_names<'a>(
    alloc: Global,
    inputs: &'a [Input],
    given: Option<&'a [u8]>,
) -> Result<UnreadNames<'a>, AllocError>
    ensures { IfOk result (λ found. spec.AreTheirFiles (option_map (λ name. name.now) given.entry) inputs.now
        (map (λ name. name.now) found.names.items) found.of_inputs.items) }
{
    let mut names = Vec::new(alloc);
    if let Some(given) = given {
        names.push(given)?;
    }
    let mut of_inputs = Vec::new(alloc);
    for input in inputs {
        let file = file_of(&mut names, input, given)?;
        of_inputs.push(file)?;
    }
    Ok(UnreadNames { names, of_inputs })
}
