// The resolver itself; what it does is in the modules below, since a contract cannot stand in the file of the struct
// that it speaks of.
ghost use Rattle.std.specs.Prelude.{◌≡◌, ◌≤◌, true};
ghost use Rattle.arrayvec.specs.ArrayVec.{array_vec_len};
ghost use Rattle.layout.specs.Contexts.{idle, rises, stacked};

use crate::draft::MOST_BLOCKS;
use crate::rule::Before;
use arrayvec::ArrayVec;
pub use questions::OpenBlocks;

mod calls;
mod moves;
mod questions;
mod sheets;

// Where a sheet stands over a parser that took its tokens so far. The contexts of the open blocks stand with the
// outermost first, and each implicit one exceeds the one beneath it. Without a sheet there are none. A context is one
// number, the column of an implicit block or 0 for an explicit one, and no enum: function L of the Haskell Report has
// both in that number and compares them by it.
#[derive(Drop)]
pub struct Resolver<P> {
    parser: P,
    contexts: ArrayVec<u32, MOST_BLOCKS>,
    before: Before,
    // The open sheet's number.
    sheet: Option<u64>,
    // The number that the next sheet gets; none once the last was handed out.
    next: Option<u64>,
    // That an `ArrayVec` holds no more than its capacity shows in no clause of it, so it is said here.
    ghost shallow: { array_vec_len contexts ≤ 64 },
    ghost rising: { rises (stacked contexts.items) ≡ true },
    ghost bare: { idle sheet contexts.items ≡ true },
}
