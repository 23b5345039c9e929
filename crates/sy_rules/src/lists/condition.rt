//! The tests of a plan, each with what classes alone say of it.

ghost use Rattle.std.specs.Prelude.{◌≡◌, ◌<◌, ◌^◌, ℕ, true};
ghost use Rattle.sy_wire.specs.declared.class.Class.{Class};
ghost use Rattle.sy_select.specs.Properties.{known, says};
ghost use Rattle.sy_select.specs.declared.verdict.Verdict.TheVariants.{Either};
ghost use Rattle.sy_select.specs.internal.Walk as walk;
ghost use Rattle.sy_rules.specs.internal.Verdicts.{IsFree, said};

use std::marker::Model;
use sy_select::{Expr, Verdict, eval, eval_class};
use sy_wire::{Class, Message};

/// What the classes of one facility say of a test: bit k is that of severity k.
#[derive(Clone, Copy)]
pub struct Verdicts {
    /// the severities for which it is true, whatever else a message has
    pub certain: u8,
    /// those for which it can be true
    pub possible: u8,
}

impl Verdicts {
    fn of(self, severity: u8) -> Verdict
        requires { severity < 8 }
        ensures { result ≡ said self severity }
    {
        if self.certain >> severity & 1 == 1 {
            Verdict::Yes
        } else if self.possible >> severity & 1 == 1 {
            Verdict::Either
        } else {
            Verdict::No
        }
    }

    fn hash(self, severity: u8, key: u64) -> u64
        requires { severity < 8 }
    {
        match self.of(severity) {
            Verdict::Yes => key,
            Verdict::Either => !key,
            Verdict::No => 0,
        }
    }

    // Whether each severity leaves it open.
    fn are_free(self) -> bool
        ensures { result ≡ true → (severity : ℕ) → severity < 8 → said self severity ≡ Either }
    {
        self.certain == 0 && self.possible == u8::MAX
    }
}

// The set of one severity.
fn only(severity: u8) -> u8
    requires { severity < 8 }
    ensures { result ≡ 2 ^ severity }
{
    1 << severity
}

// What the classes of a facility say of an expression.
fn verdicts_of(expr: &Expr, facility: u8) -> Verdicts
    requires { facility < 24 }
    ensures { (class : Class) → class.facility ≡ facility
        → said result class.severity ≡ walk.verdict (known class) expr.now }
{
    let mut found = Verdicts {
        certain: 0,
        possible: 0,
    };
    for severity in 0..8 {
        let bit = only(severity);
        match eval_class(expr, Class { facility, severity }) {
            Verdict::Yes => {
                found.certain |= bit;
                found.possible |= bit;
            }
            Verdict::Either => found.possible |= bit,
            Verdict::No => (),
        }
    }
    found
}

/// A test of a plan. Contracts see it as its expression.
#[derive(Drop)]
pub struct Condition {
    // of each facility
    verdicts: [Verdicts; 24],
    // whether no class says anything of it
    free: bool,
    expr: Expr,
}

impl Model for Condition {
    ghost use Rattle.sy_select.specs.Truth.{Formula};
    ghost use Rattle.sy_select.specs.declared.condition.Test.{Test};

    ghost Value = { Formula Test };

    ghost use Rattle.sy_select.specs.internal.Codes.{formula_code};
    ghost use Rattle.sy_select.specs.contracts.condition.Test as test;

    ghost coded = { formula_code test.the_row.coded };

    ghost view = { λ c. c.expr };

    ghost use Rattle.sy_rules.specs.internal.Verdicts.{AreVerdicts, IsFree};

    ghost invariant = { λ c. AreVerdicts c.expr c.verdicts × IsFree c.expr c.free };
}

impl Condition {
    /// An expression as a test. It is judged once for each class.
    pub fn new(expr: Expr) -> Condition
        ensures { result ≡ expr }
    {
        let mut verdicts = [Verdicts {
            certain: 0,
            possible: 0,
        }; 24];
        let mut free = true;
        for facility in 0..24 {
            let found = verdicts_of(&expr, facility);
            free &= found.are_free();
            verdicts[usize::from(facility)] = found;
        }
        Condition {
            verdicts,
            free,
            expr,
        }
    }

    /// Whether no class says anything of the test.
    pub fn is_free(&self) -> bool
        ensures { IsFree self.now result }
    {
        self.free
    }

    /// Adds to the number of each class what the class says of the test, by a key of the test: nothing where it is false.
    pub fn add_to(&self, hashes: &mut [u64; 192], key: u64) {
        if self.free {
            return;
        }
        for facility in 0..24 {
            let verdicts = self.verdicts[facility];
            if verdicts.possible != 0 {
                for severity in 0..8 {
                    let hash = verdicts.hash(severity, key);
                    let at = facility * 8 + usize::from(severity);
                    hashes[at] = hashes[at].wrapping_add(hash);
                }
            }
        }
    }

    /// What a class says of the test.
    pub fn verdict(&self, class: Class) -> Verdict
        ensures { result ≡ walk.verdict (known class) self.now }
    {
        self.verdicts[usize::from(class.facility)].of(class.severity)
    }

    /// Whether a message meets the test. It is evaluated only where the message's class leaves it open.
    pub fn is_met(&self, message: &Message) -> bool
        ensures { result ≡ walk.holds (says message.now) self.now }
    {
        match self.verdict(message.class()) {
            Verdict::Yes => true,
            Verdict::No => false,
            Verdict::Either => eval(&self.expr, message),
        }
    }
}
