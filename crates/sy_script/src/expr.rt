//! Expressions.

ghost use Rattle.std.specs.Prelude.{◌≡◌};
ghost use Rattle.sy_script.specs.internal.Reading.{Gives};
ghost use Rattle.sy_script.specs.internal.ReadingExpr as spec;
ghost use Rattle.sy_script.specs.Terms as terms;

use crate::boxed::Boxed;
use crate::halt::Halt;
use crate::items::Items;
use crate::reader::{Found, Reader, behind, expect, first};
use crate::token::{Kind, Token};
use crate::tree::{Comparison, ExprTree, Operand, Operator};

/// What is open and how much deeper the text may nest, where a part is read.
#[derive(Clone, Copy)]
pub struct Place {
    pub opened: Option<usize>,
    pub left: usize,
}

fn operator_of(kind: Kind) -> Option<Operator>
    ensures { result ≡ terms.operator_of kind }
{
    match kind {
        Kind::Equal => Some(Operator::Equal),
        Kind::NotEqual => Some(Operator::NotEqual),
        Kind::Less => Some(Operator::Less),
        Kind::AtMost => Some(Operator::AtMost),
        Kind::Greater => Some(Operator::Greater),
        Kind::AtLeast => Some(Operator::AtLeast),
        other if crate::reader::is_word(other) => Some(Operator::Named),
        _ => None,
    }
}

/// An expression that was read, where a token of this kind stands after it. That is taken too.
#[tactic(auto, unfolding(crate::specs::internal::ReadingExpr::followed))]
pub fn followed(
    kind: Kind,
    opened: Option<usize>,
    inner: ExprTree,
    rest: &[Token],
) -> Found<'_, ExprTree>
    ensures { Gives (λ x. (x.0, x.1.now)) result (spec.followed kind opened inner rest.now) }
{
    let (_token, rest) = expect(kind, opened, rest)?;
    Ok((inner, rest))
}

impl<'s> Reader<'s> {
    fn number<'t>(&self, token: Token, after: &'t [Token]) -> Found<'t, Operand>
        ensures { Gives (λ x. (x.0, x.1.now)) result (spec.operand_by self.now.text.now Kind.Number token after.now) }
    {
        Ok((Operand::Number(self.spelled(token.span)?), after))
    }

    fn string<'t>(&self, token: Token, after: &'t [Token]) -> Found<'t, Operand>
        ensures { Gives (λ x. (x.0, x.1.now)) result (spec.operand_by self.now.text.now Kind.Quoted token after.now) }
    {
        Ok((Operand::Text(self.string_at(token.span)?), after))
    }

    // The number or the string that a token is.
    fn operand_by<'t>(&self, token: Token, after: &'t [Token]) -> Found<'t, Operand>
        ensures { Gives (λ x. (x.0, x.1.now)) result (spec.operand_by self.now.text.now token.kind token after.now) }
    {
        match token.kind {
            Kind::Number => self.number(token, after),
            Kind::Quoted | Kind::SingleQuoted => self.string(token, after),
            _ => Err(Halt::Unexpected(token.span)),
        }
    }

    // A number or a string.
    #[tactic(auto, unfolding(crate::specs::internal::ReadingExpr::operand))]
    fn operand<'t>(&self, opened: Option<usize>, rest: &'t [Token]) -> Found<'t, Operand>
        ensures { Gives (λ x. (x.0, x.1.now)) result (spec.operand self.now.text.now opened rest.now) }
    {
        let (token, after) = first(opened, rest)?;
        self.operand_by(token, after)
    }

    // What stands after a property.
    #[tactic(auto, unfolding(crate::specs::internal::ReadingExpr::comparison))]
    fn comparison<'t>(
        &self,
        property: Token,
        opened: Option<usize>,
        rest: &'t [Token],
    ) -> Found<'t, ExprTree>
        ensures { Gives (λ x. (x.0, x.1.now)) result (spec.comparison self.now.text.now property opened rest.now) }
    {
        let (sign, rest) = first(opened, rest)?;
        let Some(operator) = operator_of(sign.kind) else {
            return Err(Halt::Unexpected(sign.span));
        };
        let (operand, rest) = self.operand(opened, rest)?;
        let comparison = Comparison {
            property: self.spelled(property.span)?,
            operator,
            spelling: self.spelled(sign.span)?,
            operand,
        };
        Ok((ExprTree::Compare(comparison), rest))
    }

    // What stands after `prifilt`.
    #[tactic(auto, unfolding(crate::specs::internal::ReadingExpr::prifilt))]
    fn prifilt<'t>(&self, opened: Option<usize>, rest: &'t [Token]) -> Found<'t, ExprTree>
        ensures { Gives (λ x. (x.0, x.1.now)) result (spec.prifilt self.now.text.now opened rest.now) }
    {
        let (paren, rest) = expect(Kind::LeftParen, opened, rest)?;
        let inside = Some(paren.span.start);
        let (selector, rest) = self.text(inside, rest)?;
        let (_close, rest) = expect(Kind::RightParen, inside, rest)?;
        Ok((ExprTree::Prifilt(selector), rest))
    }

    // What stands after a parenthesis.
    #[cycle(expr)]
    fn group<'t>(&self, paren: Token, left: usize, rest: &'t [Token]) -> Found<'t, ExprTree>
        ensures { Gives (λ x. (x.0, x.1.now)) result (spec.group self.now.text.now left paren rest.now) }
    {
        if left == 0 {
            return Err(Halt::TooDeep(paren.span));
        }
        let inside = Place {
            opened: Some(paren.span.start),
            left: left - 1,
        };
        let (inner, rest) = self.expr(inside, rest)?;
        let (inner, rest) = followed(Kind::RightParen, inside.opened, inner, rest)?;
        Ok((ExprTree::Group(Boxed::new(self.alloc, inner)?), rest))
    }

    // What stands after `not`.
    #[cycle(expr)]
    fn negation<'t>(&self, word: Token, place: Place, rest: &'t [Token]) -> Found<'t, ExprTree>
        ensures { Gives (λ x. (x.0, x.1.now)) result (spec.negation self.now.text.now place.left place.opened word
            rest.now) }
    {
        if place.left == 0 {
            return Err(Halt::TooDeep(word.span));
        }
        let (token, after) = first(place.opened, rest)?;
        let (inner, rest) = match token.kind {
            Kind::LeftParen => self.group(token, place.left - 1, after)?,
            Kind::Prifilt => self.prifilt(place.opened, after)?,
            _ => return Err(Halt::Unexpected(token.span)),
        };
        Ok((ExprTree::Not(Boxed::new(self.alloc, inner)?), rest))
    }

    #[cycle(expr)]
    #[tactic(auto, unfolding(crate::specs::internal::ReadingExpr::unit))]
    fn unit<'t>(&self, place: Place, rest: &'t [Token]) -> Found<'t, ExprTree>
        ensures { Gives (λ x. (x.0, x.1.now)) result (spec.unit self.now.text.now place.left place.opened rest.now) }
    {
        let (token, after) = first(place.opened, rest)?;
        match token.kind {
            Kind::LeftParen => self.group(token, place.left, after),
            Kind::Not => self.negation(token, place, after),
            Kind::Prifilt => self.prifilt(place.opened, after),
            Kind::Property => self.comparison(token, place.opened, after),
            _ => Err(Halt::Unexpected(token.span)),
        }
    }

    // The parts of a chain whose first is read. Each turn takes a token, so there are no more turns than tokens.
    #[cycle(expr)]
    fn chain<'t>(
        &self,
        joint: Kind,
        start: ExprTree,
        place: Place,
        tokens: &'t [Token],
    ) -> Found<'t, Items<ExprTree>>
        ensures { Gives (λ x. (x.0, x.1.now)) result (spec.chain self.now.text.now place.left place.opened joint
            start tokens.now) }
    {
        let mut parts = Items::new(self.alloc);
        parts.push(start)?;
        let mut rest = tokens;
        for _turn in 0..tokens.len() {
            let Some(after) = behind(joint, rest) else {
                return Ok((parts, rest));
            };
            let (part, after) = self.unit(place, after)?;
            parts.push(part)?;
            rest = after;
        }
        Ok((parts, rest))
    }

    /// An expression: a part alone, or parts that are all joined by `or`, or all by `and`.
    #[cycle(expr)]
    #[tactic(auto, unfolding(crate::specs::internal::ReadingExpr::expr, crate::specs::internal::ReadingExpr::unit, crate::specs::internal::ReadingExpr::chain))]
    pub fn expr<'t>(&self, place: Place, rest: &'t [Token]) -> Found<'t, ExprTree>
        ensures { Gives (λ x. (x.0, x.1.now)) result (spec.expr self.now.text.now place.left place.opened rest.now) }
    {
        let (start, rest) = self.unit(place, rest)?;
        if behind(Kind::Or, rest).is_some() {
            let (parts, rest) = self.chain(Kind::Or, start, place, rest)?;
            return Ok((ExprTree::Or(parts), rest));
        }
        if behind(Kind::And, rest).is_some() {
            let (parts, rest) = self.chain(Kind::And, start, place, rest)?;
            return Ok((ExprTree::And(parts), rest));
        }
        Ok((start, rest))
    }
}
