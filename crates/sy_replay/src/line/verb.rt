//! The first word of a line.

ghost use Rattle.std.specs.Prelude.{◌≡◌, IfSome, IfNone};
ghost use Rattle.sy_replay.specs.Lines.{word_of};

use super::words::is_word;

/// What a line's first word says.
#[derive(Clone, Copy)]
pub enum Verb {
    Take,
    Enter,
    Expire,
    Grab,
    Done,
    Fail,
    GiveUp,
    Post,
    PostLost,
}

/// The verb that a word is.
pub fn verb_of(word: &[u8]) -> Option<Verb>
    ensures some { IfSome result (λ v. word.now ≡ word_of v) }
    ensures none { IfNone result ((v : Verb) → word.now ≡ word_of v → ⊥) }
{
    if is_word(word, b"take") {
        return Some(Verb::Take);
    }
    if is_word(word, b"enter") {
        return Some(Verb::Enter);
    }
    if is_word(word, b"expire") {
        return Some(Verb::Expire);
    }
    if is_word(word, b"grab") {
        return Some(Verb::Grab);
    }
    if is_word(word, b"done") {
        return Some(Verb::Done);
    }
    if is_word(word, b"fail") {
        return Some(Verb::Fail);
    }
    if is_word(word, b"giveup") {
        return Some(Verb::GiveUp);
    }
    if is_word(word, b"post") {
        return Some(Verb::Post);
    }
    if is_word(word, b"postlost") {
        return Some(Verb::PostLost);
    }
    None
}
