// What a parser means: the small interface that probes it and the larger one that steps it, for the
// layout resolver above and for every parser below. docs/parsers.md says it in words.

#![tactic(auto)]

ghost use Rattle.std.specs.Prelude.{◌≡◌, ℕ, ◌≤◌, [], Decides};
ghost use Rattle.parser.specs.Sets.{Lists, Begins};
ghost use Rattle.parser.specs.Meaning.{Mark, Alike, Takes, meaning, started, marked, kept, returned, number_of};

mod expected;
mod runs;

pub use expected::{ExpectedKinds, expected_kinds};
pub use runs::{Answer, Call, accepts, agree, perform, take_all};

// Why a kind was not taken, with the number that a fault carries.
#[derive(Clone, Copy, Debug, PartialEq, Eq)]
pub enum Refused {
    NotViable = 11,
    ReachSpent = 12,
}

impl Refused {
    // The number that a fault carries: one cast, and no trait of numbers, which would be one crate more to stand on.
    pub fn number(self) -> u8
        ensures { result ≡ number_of self }
    {
        self as u8
    }
}

// Two questions, which alter nothing.
pub trait Probing {
    // The lists of kinds that may still follow.
    ghost remainder: { Self → Lists };

    // Whether some list of the remainder begins with this kind, for any number given as a kind.
    fn viable(&self, kind: u32) -> bool
        ensures { Decides result (Begins (remainder self.now) kind) };

    // Whether the remainder has the empty list.
    fn complete(&self) -> bool
        ensures { Decides result (remainder self.now []) };
}

// Five operations. Each promise gives the whole meaning afterwards.
pub trait Stepping: Probing {
    // The lists of kinds that it parses, for life.
    ghost language: { Self → Lists };

    // How many tokens it takes from a start, for life.
    ghost reach: { Self → ℕ };

    // How many tokens it will still take.
    ghost left: { Self → ℕ };

    // The mark: absent, or an earlier remainder with its number left.
    ghost saved: { Self → Mark };

    fn start(&mut self)
        ensures { Alike (meaning Self.Stepping self.new) (started (meaning Self.Stepping self.old)) };

    fn take(&mut self, kind: u32) -> Result<(), Refused>
        ensures { Takes kind (meaning Self.Stepping self.old) result (meaning Self.Stepping self.new) };

    fn mark(&mut self)
        ensures { Alike (meaning Self.Stepping self.new) (marked (meaning Self.Stepping self.old)) };

    fn back(&mut self)
        ensures { Alike (meaning Self.Stepping self.new) (returned (meaning Self.Stepping self.old)) };

    fn keep(&mut self)
        ensures { Alike (meaning Self.Stepping self.new) (kept (meaning Self.Stepping self.old)) };

    ghost reach_small: { (s : Self) → reach s ≤ 65535 };
}

#[cfg(test)]
mod tests;
