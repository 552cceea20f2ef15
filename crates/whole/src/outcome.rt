// What comes of a whole sheet.
ghost use Rattle.std.specs.Prelude.{◌≡◌};
ghost use Rattle.whole.specs.declared.outcome.Failure.TheVariants.{TooLong as too_long, NoMemory as no_memory};

use reader::TooLong;
use sheet::{Fault, Token};
use std::alloc::AllocError;

// The sheet's tokens, or the first 256 of what was refused of it, in the order of the text.
pub type Outcome = Result<Vec<Token>, Vec<Fault>>;

// Why a sheet has no outcome: its text has more than 65,535 bytes, or memory was wanting.
#[derive(Clone, Copy, Debug, PartialEq, Eq)]
pub enum Failure {
    TooLong,
    NoMemory,
}

impl From<TooLong> for Failure {
    ghost from_gives = { λ _ failure. failure ≡ too_long };

    fn from(_: TooLong) -> Failure {
        Failure::TooLong
    }
}

impl From<AllocError> for Failure {
    ghost from_gives = { λ _ failure. failure ≡ no_memory };

    fn from(_: AllocError) -> Failure {
        Failure::NoMemory
    }
}
