//! The parts that rules are made of. Each reads the first of the tokens that are left.

ghost use Rattle.std.specs.Prelude.{◌≡◌, IfOk};
ghost use Rattle.sy_script.specs.internal.Reading as spec;
ghost use Rattle.sy_script.specs.Terms as terms;
ghost use Rattle.sy_script.specs.internal.Reading.{Gives};

use crate::halt::Halt;
use crate::items::Items;
use crate::lex::part;
use crate::token::{Kind, Token};
use crate::tree::{Param, Span, Text, Word};
use std::alloc::{AllocError, Global};

/// What was read, and the tokens after it.
pub type Found<'t, T> = Result<(T, &'t [Token]), Halt>;

/// The text that tokens are of.
#[derive(Clone, Copy)]
pub struct Reader<'s> {
    pub alloc: Global,
    pub text: &'s [u8],
}

#[tactic(auto, unfolding(crate::specs::internal::Reading::same_kind))]
pub fn same_kind(a: Kind, b: Kind) -> bool
    ensures { result ≡ spec.same_kind a b }
{
    a == b
}

pub fn is_word(kind: Kind) -> bool
    ensures { result ≡ terms.is_word kind }
{
    match kind {
        Kind::Module
        | Kind::Global
        | Kind::MainQueue
        | Kind::Input
        | Kind::Ruleset
        | Kind::Action
        | Kind::Call
        | Kind::Stop
        | Kind::If
        | Kind::Then
        | Kind::Else
        | Kind::Or
        | Kind::And
        | Kind::Not
        | Kind::Prifilt
        | Kind::LeftOut
        | Kind::Name => true,
        _ => false,
    }
}

pub fn is_text(kind: Kind) -> bool
    ensures { result ≡ terms.is_text kind }
{
    match kind {
        Kind::Quoted | Kind::SingleQuoted => true,
        _ => false,
    }
}

/// The next token, whatever it is.
pub fn first(opened: Option<usize>, rest: &[Token]) -> Found<'_, Token>
    ensures { Gives (λ x. (x.0, x.1.now)) result (spec.first opened rest.now) }
{
    match rest {
        [] => Err(Halt::End(opened)),
        [token, after @ ..] => Ok((*token, after)),
    }
}

/// The next token, which has to be of this kind.
#[tactic(auto, unfolding(crate::specs::internal::Reading::expect))]
pub fn expect(kind: Kind, opened: Option<usize>, rest: &[Token]) -> Found<'_, Token>
    ensures { Gives (λ x. (x.0, x.1.now)) result (spec.expect kind opened rest.now) }
{
    let (token, after) = first(opened, rest)?;
    if same_kind(token.kind, kind) {
        Ok((token, after))
    } else {
        Err(Halt::Unexpected(token.span))
    }
}

/// The tokens after the next one, if that is of this kind.
#[tactic(auto, unfolding(crate::specs::internal::Reading::behind))]
pub fn behind(kind: Kind, rest: &[Token]) -> Option<&[Token]>
    ensures { spec.view_rest result ≡ spec.behind kind rest.now }
{
    match rest {
        [token, after @ ..] if same_kind(token.kind, kind) => Some(after),
        _ => None,
    }
}

fn escaped(b: u8) -> u8
    ensures { result ≡ terms.escaped b }
{
    match b {
        b'n' => b'\n',
        b'r' => b'\r',
        b't' => b'\t',
        other => other,
    }
}

// The bytes between the quotes.
fn unquoted(text: &[u8], span: Span) -> &[u8]
    ensures { result.now ≡ terms.unquoted text.now span }
{
    match part(text, span.start, span.end.saturating_sub(1)) {
        [] => &[],
        [_, inner @ ..] => inner,
    }
}

// The bytes between the quotes, with the escapes resolved.
fn resolved(alloc: Global, inner: &[u8]) -> Result<Items<u8>, AllocError>
    ensures { IfOk result (λ bytes. bytes ≡ terms.resolved inner.now) }
{
    let mut bytes = Items::new(alloc);
    let mut rest = inner;
    loop {
        match rest {
            [] => return Ok(bytes),
            [b'\\', b, after @ ..] => {
                bytes.push(escaped(*b))?;
                rest = after;
            }
            [b, after @ ..] => {
                bytes.push(*b)?;
                rest = after;
            }
        }
    }
}

impl<'s> Reader<'s> {
    /// The text of a token.
    pub fn spelled(&self, span: Span) -> Result<Word, AllocError>
        ensures { IfOk result (λ w. w ≡ terms.word_of self.now.text.now span) }
    {
        let text = Items::from_slice(self.alloc, part(self.text, span.start, span.end))?;
        Ok(Word { text, span })
    }

    /// The string that a token is.
    pub fn string_at(&self, span: Span) -> Result<Text, AllocError>
        ensures { IfOk result (λ t. t ≡ terms.text_of self.now.text.now span) }
    {
        let bytes = resolved(self.alloc, unquoted(self.text, span))?;
        Ok(Text { bytes, span })
    }

    /// A word.
    #[tactic(auto, unfolding(crate::specs::internal::Reading::word))]
    pub fn word<'t>(&self, opened: Option<usize>, rest: &'t [Token]) -> Found<'t, Word>
        ensures { Gives (λ x. (x.0, x.1.now)) result (spec.word self.now.text.now opened rest.now) }
    {
        let (token, after) = first(opened, rest)?;
        if !is_word(token.kind) {
            return Err(Halt::Unexpected(token.span));
        }
        Ok((self.spelled(token.span)?, after))
    }

    /// A string in either quotes.
    #[tactic(auto, unfolding(crate::specs::internal::Reading::text))]
    pub fn text<'t>(&self, opened: Option<usize>, rest: &'t [Token]) -> Found<'t, Text>
        ensures { Gives (λ x. (x.0, x.1.now)) result (spec.text self.now.text.now opened rest.now) }
    {
        let (token, after) = first(opened, rest)?;
        if !is_text(token.kind) {
            return Err(Halt::Unexpected(token.span));
        }
        Ok((self.string_at(token.span)?, after))
    }

    // `name="value"`, in double quotes
    #[tactic(auto, unfolding(crate::specs::internal::Reading::param))]
    fn param<'t>(&self, opened: Option<usize>, rest: &'t [Token]) -> Found<'t, Param>
        ensures { Gives (λ x. (x.0, x.1.now)) result (spec.param self.now.text.now opened rest.now) }
    {
        let (name, rest) = self.word(opened, rest)?;
        let (_assign, rest) = expect(Kind::Assign, opened, rest)?;
        let (token, rest) = expect(Kind::Quoted, opened, rest)?;
        let value = self.string_at(token.span)?;
        Ok((Param { name, value }, rest))
    }

    // Parameters up to the closing parenthesis. Each turn takes a token, so there are no more turns than tokens.
    fn params_in<'t>(&self, opened: Option<usize>, tokens: &'t [Token]) -> Found<'t, Items<Param>>
        ensures { Gives (λ x. (x.0, x.1.now)) result (spec.params_in self.now.text.now opened tokens.now) }
    {
        let mut found = Items::new(self.alloc);
        let mut rest = tokens;
        for _turn in 0..tokens.len() {
            if let Some(after) = behind(Kind::RightParen, rest) {
                return Ok((found, after));
            }
            let (param, after) = self.param(opened, rest)?;
            found.push(param)?;
            rest = after;
        }
        Err(Halt::End(opened))
    }

    /// `(name="value" ..)`
    #[tactic(auto, unfolding(crate::specs::internal::Reading::params))]
    pub fn params<'t>(&self, opened: Option<usize>, rest: &'t [Token]) -> Found<'t, Items<Param>>
        ensures { Gives (λ x. (x.0, x.1.now)) result (spec.params self.now.text.now opened rest.now) }
    {
        let (paren, rest) = expect(Kind::LeftParen, opened, rest)?;
        self.params_in(Some(paren.span.start), rest)
    }
}
