// A stack of symbols with the number of tokens that may still be taken: what a parser holds now, and what a mark holds.
ghost use Rattle.std.specs.Prelude.{◌≡◌, ◌+◌, ◌*◌, ◌≤◌, [], ◌∷◌, ◌++◌, length, take, reverse, Decides};
ghost use Rattle.arrayvec.specs.ArrayVec.{array_vec_len};
ghost use Rattle.grammar.specs.Grammar.{start as start_symbol};
ghost use Rattle.parser.specs.Sets.{Begins};
ghost use Rattle.parser.specs.Meaning.{Takes, absent};
ghost use Rattle.table.specs.Stack.{Ends};

use crate::walk::meet;
use arrayvec::ArrayVec;
use grammar::is_nullable;
use parser::Refused;

// One place for the start symbol and three for each token.
const DEPTH: usize = 3073;

// How many tokens are taken from a start.
const REACH: u16 = 1024;

// The start symbol.
const START: u8 = 16;

// The top of the stack is the last of the symbols. For each token left three more have room.
#[derive(Drop)]
pub(crate) struct Level {
    symbols: ArrayVec<u8, DEPTH>,
    left: u16,
    ghost room: { array_vec_len symbols + 3 * left ≤ 3073 },
    ghost ends: { Ends (reverse symbols.items) },
}

// Keeps so many symbols from the bottom, and lays these on top. Few are taken off and few are laid, so that goes one by
// one: `truncate` and `try_extend_from_slice` were tried, and took 342 instructions a lexeme on the longest mixed sheet of
// bench/ in place of 255.
fn lay(symbols: &mut ArrayVec<u8, DEPTH>, below: usize, top: &[u8])
    requires { (below ≤ array_vec_len symbols.old) × (below + length top.now ≤ 3073) }
    ensures { symbols.new.items ≡ take below symbols.old.items ++ top.now }
{
    while symbols.len() > below {
        symbols.pop();
    }
    for symbol in top {
        symbols.push(*symbol);
    }
}

// Writes symbols over as many others. It is no `copy_from_slice`, and a function that stays apart, since by `copy_from_slice`, or
// by a loop within the caller, the archive of `speed` needs `memmove` from outside beside `memcpy`.
#[inline(never)]
fn write_over(symbols: &mut [u8], others: &[u8])
    requires { length symbols.old ≡ length others.now }
    ensures { symbols.new ≡ others.now }
{
    for at in 0..symbols.len() {
        symbols[at] = others[at];
    }
}

impl Level {
    ghost use Rattle.table.specs.Level.{remains, stack_of, means};

    // The start symbol alone, with the whole reach.
    pub(crate) fn new() -> Level
        ensures stack { stack_of result ≡ start_symbol ∷ [] }
        ensures left { result.left ≡ 1024 }
    {
        let mut symbols = ArrayVec::new();
        symbols.push(START);
        Level {
            symbols,
            left: REACH,
        }
    }

    // Back to the start symbol alone, with the whole reach. No `*self = Level::new()`: that writes every place again.
    pub(crate) fn reset(&mut self)
        ensures stack { stack_of self.new ≡ start_symbol ∷ [] }
        ensures left { self.new.left ≡ 1024 }
    {
        self.symbols.clear();
        self.symbols.push(START);
        self.left = REACH;
    }

    // The same stack and number left as the other has. Only the symbols of the two stacks are touched, and nothing is tested
    // for room. An `ArrayVec` is not `Copy`, its `clone` answers an error, where this call cannot fail, and its
    // `try_extend_from_slice` tests for room.
    pub(crate) fn copy(&mut self, other: &Level)
        ensures stack { stack_of self.new ≡ stack_of other.now }
        ensures left { self.new.left ≡ other.now.left }
    {
        let below = self.symbols.len().min(other.symbols.len());
        lay(&mut self.symbols, below, &other.symbols[below..]);
        write_over(self.symbols.as_mut_slice(), &other.symbols);
        self.left = other.left;
    }

    // Whether some list that the stack derives begins with this kind.
    pub(crate) fn viable(&self, kind: u32) -> bool
        ensures { Decides result (Begins (remains (stack_of self.now)) kind) }
    {
        self.meets(kind)
    }

    // Whether a walk down the stack meets the kind. Apart from `viable`, which is proved from this contract, so that a kind that
    // is called viable on other grounds is refused for what it means.
    fn meets(&self, kind: u32) -> bool
        ensures { Decides result (Begins (remains (stack_of self.now)) kind) }
    {
        meet(&self.symbols, kind).is_some()
    }

    // Whether the stack derives the empty list. The bottom is tested first: there a block that is open has its brace.
    pub(crate) fn complete(&self) -> bool
        ensures { Decides result (remains (stack_of self.now) []) }
    {
        self.symbols.iter().all(|symbol| is_nullable(*symbol))
    }

    // Takes the kind, where it is viable and some are left.
    pub(crate) fn take(&mut self, kind: u32) -> Result<(), Refused>
        ensures { Takes kind (means (stack_of self.old) self.old.left absent) result (means (stack_of self.new) self.new.left absent) }
    {
        let Some(met) = meet(&self.symbols, kind) else {
            return Err(Refused::NotViable);
        };
        if self.left == 0 {
            return Err(Refused::ReachSpent);
        }
        lay(&mut self.symbols, met.below, met.left);
        self.left -= 1;
        Ok(())
    }
}
