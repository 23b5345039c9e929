//! The words of the language, without regard to the case of their letters.

ghost use Rattle.std.specs.Prelude.{◌≡◌};
ghost use Rattle.std.specs.Str.{str_eq_ignore_ascii_case};
ghost use Rattle.sy_fleet_text.specs.Words as spec;

use crate::piece::{Object, Word};

/// Whether two words are the same but for the case of their letters.
pub fn same_word(a: &[u8], b: &[u8]) -> bool
    ensures { result ≡ str_eq_ignore_ascii_case a.now b.now }
{
    a.eq_ignore_ascii_case(b)
}

fn control_word(word: &[u8]) -> Option<Word>
    ensures { result ≡ spec.control_word word.now }
{
    if same_word(b"if", word) {
        return Some(Word::If);
    }
    if same_word(b"then", word) {
        return Some(Word::Then);
    }
    if same_word(b"else", word) {
        return Some(Word::Else);
    }
    if same_word(b"stop", word) {
        return Some(Word::Stop);
    }
    if same_word(b"call", word) {
        return Some(Word::Call);
    }
    if same_word(b"call_indirect", word) {
        return Some(Word::CallIndirect);
    }
    None
}

/// The word of the language that these bytes are.
pub(crate) fn word_of(word: &[u8]) -> Option<Word>
    ensures { result ≡ spec.word_of word.now }
{
    if same_word(b"set", word) {
        return Some(Word::Set);
    }
    if same_word(b"unset", word) {
        return Some(Word::Unset);
    }
    if same_word(b"reset", word) {
        return Some(Word::Reset);
    }
    if same_word(b"foreach", word) {
        return Some(Word::Foreach);
    }
    if same_word(b"do", word) {
        return Some(Word::Do);
    }
    if same_word(b"continue", word) {
        return Some(Word::Continue);
    }
    control_word(word)
}

fn rare_object(word: &[u8]) -> Option<Object>
    ensures { result ≡ spec.rare_object word.now }
{
    if same_word(b"parser", word) {
        return Some(Object::Parser);
    }
    if same_word(b"timezone", word) {
        return Some(Object::Timezone);
    }
    if same_word(b"lookup_table", word) {
        return Some(Object::LookupTable);
    }
    if same_word(b"dyn_stats", word) {
        return Some(Object::DynStats);
    }
    if same_word(b"percentile_stats", word) {
        return Some(Object::PercentileStats);
    }
    if same_word(b"reload_lookup_table", word) {
        return Some(Object::ReloadLookupTable);
    }
    None
}

fn common_object(word: &[u8]) -> Option<Object>
    ensures { result ≡ spec.common_object word.now }
{
    if same_word(b"global", word) {
        return Some(Object::Global);
    }
    if same_word(b"main_queue", word) {
        return Some(Object::MainQueue);
    }
    if same_word(b"include", word) {
        return Some(Object::Include);
    }
    if same_word(b"property", word) {
        return Some(Object::Property);
    }
    if same_word(b"constant", word) {
        return Some(Object::Constant);
    }
    rare_object(word)
}

/// The object that these bytes name.
pub(crate) fn object_of(word: &[u8]) -> Option<Object>
    ensures { result ≡ spec.object_of word.now }
{
    if same_word(b"module", word) {
        return Some(Object::Module);
    }
    if same_word(b"input", word) {
        return Some(Object::Input);
    }
    if same_word(b"action", word) {
        return Some(Object::Action);
    }
    if same_word(b"ruleset", word) {
        return Some(Object::Ruleset);
    }
    if same_word(b"template", word) {
        return Some(Object::Template);
    }
    common_object(word)
}
