//! Statements, blocks and what stands at the top of a file.

ghost use Rattle.std.specs.Prelude.{◌≡◌};
ghost use Rattle.sy_script.specs.internal.Reading.{Gives};
ghost use Rattle.sy_script.specs.internal.ReadingStmt as spec;
ghost use Rattle.sy_script.specs.Terms as terms;

use crate::boxed::Boxed;
use crate::expr::{Place, followed};
use crate::halt::Halt;
use crate::items::Items;
use crate::reader::{Found, Reader, behind, expect, first, same_kind};
use crate::token::{Kind, Token};
use crate::tree::{Block, ExprTree, Object, ObjectKind, Ruleset, Stmt, Top};

/// How deep blocks, parentheses and `not` nest together.
const MAX_DEPTH: usize = 32;

// Why a token begins no statement.
fn refusal(token: Token) -> Halt
    ensures { result ≡ spec.refusal token }
{
    match token.kind {
        Kind::LeftOut | Kind::Property => Halt::LeftOut(token.span),
        _ => Halt::Unexpected(token.span),
    }
}

// Why no block begins with a token, where none may nest deeper.
fn too_deep(token: Token) -> Halt
    ensures { result ≡ spec.too_deep token }
{
    match token.kind {
        Kind::LeftBrace | Kind::Action | Kind::Call | Kind::Stop | Kind::If => {
            Halt::TooDeep(token.span)
        }
        _ => refusal(token),
    }
}

fn object_kind(kind: Kind) -> Option<ObjectKind>
    ensures { result ≡ terms.object_kind kind }
{
    match kind {
        Kind::Module => Some(ObjectKind::Module),
        Kind::Global => Some(ObjectKind::Global),
        Kind::MainQueue => Some(ObjectKind::MainQueue),
        Kind::Input => Some(ObjectKind::Input),
        _ => None,
    }
}

impl<'s> Reader<'s> {
    #[cycle(stmt)]
    #[tactic(auto, unfolding(crate::specs::internal::ReadingStmt::stmt, crate::specs::internal::ReadingStmt::choice))]
    fn stmt<'t>(&self, place: Place, rest: &'t [Token]) -> Found<'t, Stmt>
        ensures { Gives (λ x. (x.0, x.1.now)) result (spec.stmt self.now.text.now place.left place.opened rest.now) }
    {
        let (token, after) = first(place.opened, rest)?;
        match token.kind {
            Kind::Action => {
                let (params, rest) = self.params(place.opened, after)?;
                Ok((Stmt::Action(token.span, params), rest))
            }
            Kind::Call => {
                let (name, rest) = self.word(place.opened, after)?;
                Ok((Stmt::Call(name), rest))
            }
            Kind::Stop => Ok((Stmt::Stop(token.span), after)),
            Kind::If => self.choice(place, after),
            _ => Err(refusal(token)),
        }
    }

    // What stands after `if`, up to `then`.
    #[tactic(auto, unfolding(crate::specs::internal::ReadingStmt::condition, crate::specs::internal::ReadingExpr::followed))]
    fn condition<'t>(&self, place: Place, rest: &'t [Token]) -> Found<'t, ExprTree>
        ensures { Gives (λ x. (x.0, x.1.now)) result (spec.condition self.now.text.now place.left place.opened
            rest.now) }
    {
        let (test, rest) = self.expr(place, rest)?;
        followed(Kind::Then, place.opened, test, rest)
    }

    // What stands after `then`. An `else` belongs to the nearest `if`.
    #[cycle(stmt)]
    #[tactic(auto, unfolding(crate::specs::internal::ReadingStmt::branches))]
    fn branches<'t>(&self, place: Place, rest: &'t [Token]) -> Found<'t, (Block, Option<Block>)>
        ensures { Gives (λ x. (x.0, x.1.now)) result (spec.branches self.now.text.now place.left place.opened
            rest.now) }
    {
        let (done, rest) = self.block(place, rest)?;
        let Some(rest) = behind(Kind::Else, rest) else {
            return Ok(((done, None), rest));
        };
        let (otherwise, rest) = self.block(place, rest)?;
        Ok(((done, Some(otherwise)), rest))
    }

    // What stands after `if`.
    #[cycle(stmt)]
    #[tactic(auto, unfolding(crate::specs::internal::ReadingStmt::choice, crate::specs::internal::ReadingStmt::condition, crate::specs::internal::ReadingStmt::branches))]
    fn choice<'t>(&self, place: Place, rest: &'t [Token]) -> Found<'t, Stmt>
        ensures { Gives (λ x. (x.0, x.1.now)) result (spec.choice self.now.text.now place.left place.opened rest.now) }
    {
        let (test, rest) = self.condition(place, rest)?;
        let ((done, otherwise), rest) = self.branches(place, rest)?;
        Ok((Stmt::If(test, done, otherwise), rest))
    }

    #[cycle(stmt)]
    fn block<'t>(&self, place: Place, rest: &'t [Token]) -> Found<'t, Block>
        ensures { Gives (λ x. (x.0, x.1.now)) result (spec.block self.now.text.now place.left place.opened rest.now) }
    {
        if place.left == 0 {
            let (last, _) = first(place.opened, rest)?;
            return Err(too_deep(last));
        }
        let (token, after) = first(place.opened, rest)?;
        if same_kind(token.kind, Kind::LeftBrace) {
            let inside = Place {
                opened: Some(token.span.start),
                left: place.left - 1,
            };
            let (body, rest) = self.body(inside, after)?;
            return Ok((Block::Braced(body), rest));
        }
        let inside = Place {
            opened: place.opened,
            left: place.left - 1,
        };
        let (stmt, rest) = self.stmt(inside, rest)?;
        Ok((Block::Single(Boxed::new(self.alloc, stmt)?), rest))
    }

    // Statements up to the closing brace. Each turn takes a token, so there are no more turns than tokens.
    #[cycle(stmt)]
    fn body<'t>(&self, place: Place, tokens: &'t [Token]) -> Found<'t, Items<Stmt>>
        ensures { Gives (λ x. (x.0, x.1.now)) result (spec.body self.now.text.now place.left place.opened tokens.now) }
    {
        let mut found = Items::new(self.alloc);
        let mut rest = tokens;
        for _turn in 0..tokens.len() {
            if let Some(after) = behind(Kind::RightBrace, rest) {
                return Ok((found, after));
            }
            let (stmt, after) = self.stmt(place, rest)?;
            found.push(stmt)?;
            rest = after;
        }
        Err(Halt::End(place.opened))
    }

    // What stands after `ruleset`.
    #[tactic(auto, unfolding(crate::specs::internal::ReadingStmt::rules))]
    fn ruleset<'t>(&self, word: Token, rest: &'t [Token]) -> Found<'t, Ruleset>
        ensures { Gives (λ x. (x.0, x.1.now)) result (spec.rules self.now.text.now terms.max_depth word rest.now) }
    {
        let (params, rest) = self.params(None, rest)?;
        let (brace, rest) = expect(Kind::LeftBrace, None, rest)?;
        let inside = Place {
            opened: Some(brace.span.start),
            left: MAX_DEPTH,
        };
        let (body, rest) = self.body(inside, rest)?;
        let span = word.span;
        Ok((Ruleset { span, params, body }, rest))
    }

    #[tactic(auto, unfolding(crate::specs::internal::ReadingStmt::top))]
    fn top<'t>(&self, tokens: &'t [Token]) -> Found<'t, Top>
        ensures { Gives (λ x. (x.0, x.1.now)) result (spec.top self.now.text.now terms.max_depth tokens.now) }
    {
        let (token, after) = first(None, tokens)?;
        if let Some(kind) = object_kind(token.kind) {
            let (params, rest) = self.params(None, after)?;
            let span = token.span;
            return Ok((Top::Object(Object { kind, span, params }), rest));
        }
        if same_kind(token.kind, Kind::Ruleset) {
            let (ruleset, rest) = self.ruleset(token, after)?;
            return Ok((Top::Ruleset(ruleset), rest));
        }
        let place = Place {
            opened: None,
            left: MAX_DEPTH,
        };
        let (stmt, rest) = self.stmt(place, tokens)?;
        Ok((Top::Stmt(stmt), rest))
    }

    /// What stands at the top of a file. Each turn takes a token, so there are no more turns than tokens.
    pub fn tops(&self, tokens: &[Token]) -> Result<Items<Top>, Halt>
        ensures { Gives (λ x. x) result (spec.tops self.now.text.now terms.max_depth tokens.now) }
    {
        let mut found = Items::new(self.alloc);
        let mut rest = tokens;
        for _turn in 0..tokens.len() {
            if rest.is_empty() {
                return Ok(found);
            }
            let (top, after) = self.top(rest)?;
            found.push(top)?;
            rest = after;
        }
        Ok(found)
    }
}
