//! Sets of severities, and what a part of a selector does with them.

ghost use Rattle.std.specs.Prelude.{⊤, ◌≡◌, ◌<◌, ◌+◌, ◌-◌, ◌^◌, ◌==◌, ℕ, [], ◌∷◌, codes, not, if◌then◌else◌};
ghost use Rattle.std.specs.Int.{bit_at};
ghost use Rattle.sy_select.specs.internal.Masks.{has_bit};

use bitflags::{Flag, Flags, bitflag_items};

/// A set of severities, with a flag for each.
#[derive(Clone, Copy)]
pub struct Severities(u8);

bitflag_items! {
    impl Severities: u8 {
        const EMERG = 1;
        const ALERT = 2;
        const CRIT = 4;
        const ERR = 8;
        const WARNING = 16;
        const NOTICE = 32;
        const INFO = 64;
        const DEBUG = 128;
    }
}

impl Flags for Severities {
    type Bits = u8;

    ghost exact = { ⊤ };

    ghost table = { (codes "EMERG", 1) ∷ (codes "ALERT", 2) ∷ (codes "CRIT", 4) ∷ (codes "ERR", 8)
        ∷ (codes "WARNING", 16) ∷ (codes "NOTICE", 32) ∷ (codes "INFO", 64) ∷ (codes "DEBUG", 128) ∷ [] };

    ghost set_of = { λ s. s.0 };

    fn flags<'a>() -> &'a [Flag<Severities>] {
        Severities::FLAGS
    }

    fn bits(&self) -> u8 {
        self.0
    }

    fn from_bits_retain(bits: u8) -> Severities {
        Severities(bits)
    }
}

impl Severities {
    /// One severity alone.
    pub fn only(severity: u8) -> Severities
        requires { severity < 8 }
        ensures { result.0 ≡ 2 ^ severity }
    {
        match severity {
            0 => Severities::EMERG,
            1 => Severities::ALERT,
            2 => Severities::CRIT,
            3 => Severities::ERR,
            4 => Severities::WARNING,
            5 => Severities::NOTICE,
            6 => Severities::INFO,
            7 => Severities::DEBUG,
            _ => unreachable!(),
        }
    }

    /// A severity and all more urgent ones, whose numbers are smaller.
    pub fn up_to(severity: u8) -> Severities
        requires { severity < 8 }
        ensures { result.0 ≡ 2 ^ (severity + 1) - 1 }
    {
        Severities(match severity {
            0 => 0b0000_0001,
            1 => 0b0000_0011,
            2 => 0b0000_0111,
            3 => 0b0000_1111,
            4 => 0b0001_1111,
            5 => 0b0011_1111,
            6 => 0b0111_1111,
            7 => 0b1111_1111,
            _ => unreachable!(),
        })
    }

    /// Whether a severity is in the set.
    pub fn has(self, severity: u8) -> bool
        requires { severity < 8 }
        ensures { result ≡ (bit_at self.0 severity == 1) }
    {
        self.contains(Severities::only(severity))
    }
}

/// Severities, and whether they are taken away in place of added.
#[derive(Clone, Copy)]
pub struct Level {
    pub takes: bool,
    pub severities: Severities,
    ghost mask_in_range: { severities.0 < 2 ^ 8 },
}

impl Level {
    /// Adds the severities to a set, or takes them away.
    pub fn apply(self, set: &mut Severities)
        ensures small { set.old.0 < 2 ^ 8 → set.new.0 < 2 ^ 8 }
        ensures pairs { (s : ℕ) → s < 8 → has_bit set.new.0 s
            ≡ (if has_bit self.severities.0 s then not self.takes else has_bit set.old.0 s) }
    {
        if self.takes {
            set.remove(self.severities);
        } else {
            set.insert(self.severities);
        }
    }
}
