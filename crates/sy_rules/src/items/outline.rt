//! The items of a script that a plan is made of, in the order of the text.

ghost use Rattle.std.specs.Prelude.{◌≡◌, ◌++◌, ◌∷◌, [], map, IfOk, OnOk};
ghost use Rattle.sy_rules.specs.items.ItemViews as view;
ghost use Rattle.sy_rules.specs.items.ItemViews.{item, placed};
ghost use Rattle.sy_rules.specs.items.Outline as spec;
ghost use Rattle.sy_rules.specs.internal.Outline as inside;

use crate::fault::NOWHERE;
use std::alloc::{AllocError, Global};
use sy_script::tree::{Block, ExprTree, ObjectKind, Param, Script, Span, Stmt, Top};

/// An item of a script, with the place of its word, or of the name in a call.
#[derive(Clone, Copy)]
pub enum Item<'s> {
    /// An object that stands alone.
    Object(Span, ObjectKind, &'s [Param]),
    /// The head of a ruleset, before its statements.
    Ruleset(Span, &'s [Param]),
    Action(Span, &'s [Param]),
    /// A call of the ruleset of this name.
    Call(Span, &'s [u8]),
    /// The test of an `if`, before its blocks.
    Test(&'s ExprTree),
}

impl<'s> Item<'s> {
    /// The place of the item. A test has none, since what is wrong with it stands at a part of it.
    pub fn span(&self) -> Span
        ensures { result ≡ view.span self.now }
    {
        match *self {
            Item::Object(span, _, _) => span,
            Item::Ruleset(span, _) => span,
            Item::Action(span, _) => span,
            Item::Call(span, _) => span,
            Item::Test(_) => NOWHERE,
        }
    }
}

fn push_item<'s>(found: &mut Vec<Item<'s>>, next: Item<'s>) -> Result<(), AllocError>
    ensures { OnOk result (map placed found.new.items ≡ map placed found.old.items ++ placed next.entry ∷ []) }
{
    found.push(next)?;
    Ok(())
}

#[cycle(items)]
fn push_stmt<'s>(found: &mut Vec<Item<'s>>, stmt: &'s Stmt) -> Result<(), AllocError>
    ensures { OnOk result (map placed found.new.items ≡ map placed found.old.items ++ spec.placed_in_stmt stmt.now) }
{
    match stmt {
        Stmt::Action(span, params) => push_item(found, Item::Action(*span, params.as_slice())),
        Stmt::Call(name) => push_item(found, Item::Call(name.span, name.text.as_slice())),
        Stmt::Stop(_) => Ok(()),
        Stmt::If(test, done, None) => {
            push_item(found, Item::Test(test))?;
            push_block(found, done)
        }
        Stmt::If(test, done, Some(otherwise)) => {
            push_item(found, Item::Test(test))?;
            push_block(found, done)?;
            push_block(found, otherwise)
        }
    }
}

#[cycle(items)]
fn push_block<'s>(found: &mut Vec<Item<'s>>, block: &'s Block) -> Result<(), AllocError>
    ensures { OnOk result (map placed found.new.items ≡ map placed found.old.items ++ inside.placed_in_block block.now) }
{
    match block {
        Block::Single(stmt) => push_stmt(found, stmt.get()),
        Block::Braced(body) => push_body(found, body.as_slice()),
    }
}

#[cycle(items)]
fn push_body<'s>(found: &mut Vec<Item<'s>>, body: &'s [Stmt]) -> Result<(), AllocError>
    ensures { OnOk result (map placed found.new.items ≡ map placed found.old.items ++ spec.placed_in_body body.now) }
{
    for stmt in body {
        push_stmt(found, stmt)?;
    }
    Ok(())
}

fn push_top<'s>(found: &mut Vec<Item<'s>>, top: &'s Top) -> Result<(), AllocError>
    ensures { OnOk result (map placed found.new.items ≡ map placed found.old.items ++ spec.placed_in_top top.now) }
{
    match top {
        Top::Object(object) => {
            let params = object.params.as_slice();
            push_item(found, Item::Object(object.span, object.kind, params))
        }
        Top::Ruleset(ruleset) => {
            push_item(
                found,
                Item::Ruleset(ruleset.span, ruleset.params.as_slice()),
            )?;
            push_body(found, ruleset.body.as_slice())
        }
        Top::Stmt(stmt) => push_stmt(found, stmt),
    }
}

/// The items of a script with their places, in the order of the text. It goes as deep as the script nests.
pub fn outline(alloc: Global, script: &Script) -> Result<Vec<Item<'_>>, AllocError>
    ensures placed { IfOk result (λ found. map placed found.items ≡ spec.placed_items script.now) }
    ensures items { IfOk result (λ found. map item found.items ≡ spec.items script.now) }
{
    let mut found = Vec::new(alloc);
    let mut rest = script.tops.as_slice();
    while let [top, after @ ..] = rest {
        push_top(&mut found, top)?;
        rest = after;
    }
    Ok(found)
}
