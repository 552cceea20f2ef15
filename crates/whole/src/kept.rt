// What is kept of a sheet by itself; how it is kept is in the module below, since a contract cannot stand in the file
// of the struct that it speaks of.
ghost use Rattle.std.specs.Prelude.{◌≤◌, vec_len};

use sheet::{Fault, Token};

pub mod keeping;

// A sheet's tokens, and the first 256 of its faults.
#[derive(Drop)]
pub struct Kept {
    tokens: Vec<Token>,
    faults: Vec<Fault>,
    ghost few: { vec_len faults ≤ 256 },
}
