// A walk down the stack as a kind comes next. It only looks, so that a kind that is not met leaves nothing behind.
ghost use Rattle.std.specs.Prelude.{reverse, MatchOption};
ghost use Rattle.grammar.specs.Grammar.{IsKind};
ghost use Rattle.table.specs.Stack.{Ends, Never};
ghost use Rattle.table.specs.Walk.{Found};

use crate::steps::{Step, comes_to};

// Where a kind is met: how many symbols lie below the one that it met, and what is left of that one, the last first.
#[derive(Clone, Copy)]
pub(crate) struct Met {
    pub(crate) below: usize,
    pub(crate) left: &'static [u8],
}

// Walks down the stack, whose top is its last item, until the kind is met. There is no such walk where the kind is not
// viable.
pub(crate) fn meet(stack: &[u8], kind: u32) -> Option<Met>
    requires { Ends (reverse stack.now) }
    ensures { MatchOption result (IsKind kind → Never kind (reverse stack.now)) (λ m. Found kind stack.now m.below m.left.now) }
{
    if !matches!(kind, 1..=15) {
        return None;
    }
    let mut rest = stack;
    while let Some((symbol, below)) = rest.split_last() {
        match comes_to(*symbol, kind) {
            Step::Rejected => return None,
            Step::Vanishes => rest = below,
            Step::Meets(left) => {
                return Some(Met {
                    below: below.len(),
                    left,
                });
            }
        }
    }
    None
}
