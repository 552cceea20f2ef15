// Which kinds a parser expects next, asked through the probing interface alone.
ghost use Rattle.std.specs.Prelude.{◌≡◌, ℕ, ◌≤◌, false, Decides};
ghost use Rattle.parser.specs.Sets.{Begins};
ghost use Rattle.parser.specs.Expected.{flagged};

use crate::Probing;

// A flag for each kind from 1 to 15, at its number; none is at 0.
const FLAGS: usize = 16;

// Which of the fifteen kinds are viable.
#[derive(Clone, Copy)]
pub struct ExpectedKinds {
    flags: [bool; FLAGS],
}

impl ExpectedKinds {
    // Whether this kind is among them.
    pub fn has(&self, kind: u32) -> bool
        ensures { result ≡ flagged self.now.flags kind }
    {
        self.flags.get(kind as usize).copied().unwrap_or(false)
    }
}

// Asks for each of the fifteen kinds whether it is viable; no other number is flagged.
pub fn expected_kinds<P: Probing>(parser: &P) -> ExpectedKinds
    ensures kinds { (kind : ℕ) → 1 ≤ kind → kind ≤ 15 → Decides (flagged result.flags kind) (Begins (P.remainder parser.now) kind) }
    ensures others { (kind : ℕ) → (1 ≤ kind → kind ≤ 15 → ⊥) → flagged result.flags kind ≡ false }
{
    let mut flags = [false; FLAGS];
    // No `array::from_fn`: what it promises does not tell that its closure asks the same parser at each turn.
    for kind in 1..FLAGS {
        flags[kind] = parser.viable(kind as u32);
    }
    ExpectedKinds { flags }
}
