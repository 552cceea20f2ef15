// Keeping a sheet's tokens and faults in vectors.
ghost use Rattle.std.specs.Prelude.{◌≡◌, []};
ghost use Rattle.whole.specs.Kept.{Holds, holds_keeping};
ghost use Rattle.whole.specs.Whole.{outcome, verdict};

use super::Kept;
use crate::keeper::Keeper;
use crate::outcome::Outcome;
use layout::drain;
use queue::Queue;
use sheet::{Fault, Token};
use std::alloc::{AllocError, Global};

// So many faults are kept.
const MOST_FAULTS: usize = 256;

impl Kept {
    // Nothing yet.
    pub fn new(heap: Global) -> Kept
        ensures tokens { result.tokens.items ≡ [] }
        ensures faults { result.faults.items ≡ [] }
    {
        Kept {
            tokens: Vec::new(heap),
            faults: Vec::new(heap),
        }
    }

    // What comes of a sheet of which this was kept.
    pub fn outcome(self) -> Outcome
        ensures { outcome result ≡ verdict self.tokens.items self.faults.items }
    {
        if self.faults.is_empty() {
            Ok(self.tokens)
        } else {
            Err(self.faults)
        }
    }
}

impl Keeper for Kept {
    ghost kept = { Holds };

    type Error = AllocError;

    fn tokens(&mut self, queue: &mut Queue<'_, Token>) -> Result<(), AllocError> {
        drain(queue, &mut self.tokens)
    }

    // Unless there are enough.
    fn fault(&mut self, fault: Fault) -> Result<(), AllocError> {
        if self.faults.len() < MOST_FAULTS {
            self.faults.push(fault)?;
        }
        Ok(())
    }

    ghost laws = { holds_keeping };
}
