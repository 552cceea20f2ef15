// Questions to a resolver, which alter nothing.
ghost use Rattle.std.specs.Prelude.{◌≡◌, ℕ, ◌≤◌, false, length, is_some, Decides};
ghost use Rattle.parser.specs.Expected.{flagged};
ghost use Rattle.parser.specs.Sets.{Begins};
ghost use Rattle.layout.specs.Calling.{standing};
ghost use Rattle.layout.specs.Contexts.{implicit_among};

use super::Resolver;
use parser::{ExpectedKinds, Probing};

// How many blocks are open, and how many of them are implicit.
#[derive(Clone, Copy, Debug, PartialEq, Eq)]
pub struct OpenBlocks {
    pub all: usize,
    pub implicit: usize,
}

impl<P> Resolver<P> {
    // Counts the open blocks; without a sheet there are none.
    pub fn open_blocks(&self) -> OpenBlocks
        ensures all { result.all ≡ length (standing self.now).contexts }
        ensures implicit { result.implicit ≡ implicit_among (standing self.now).contexts }
        ensures few { result.implicit ≤ result.all }
        ensures idle { is_some (standing self.now).sheet ≡ false → (result.all ≡ 0) × (result.implicit ≡ 0) }
    {
        OpenBlocks {
            all: self.contexts.len(),
            // An explicit block's context is 0.
            implicit: self.contexts.iter().filter(|context| **context > 0).count(),
        }
    }
}

impl<P: Probing> Resolver<P> {
    // Which kinds the parser finds viable as it stands.
    pub fn expected_kinds(&self) -> ExpectedKinds
        ensures kinds { (kind : ℕ) → 1 ≤ kind → kind ≤ 15 → Decides (flagged result.flags kind) (Begins (P.remainder self.now.parser) kind) }
        ensures others { (kind : ℕ) → (1 ≤ kind → kind ≤ 15 → ⊥) → flagged result.flags kind ≡ false }
    {
        parser::expected_kinds(&self.parser)
    }
}
