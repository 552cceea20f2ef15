// The vocabulary that every layer shares: kinds, lexemes, tokens, places and faults, with the numbers by which the
// outside knows them. It computes nothing of its own.

#![tactic(auto)]

mod fault;
mod lexeme;

pub use fault::{Fault, Layer, Reason};
pub use lexeme::{Kind, LAST_COLUMN, Lexeme, NoKind, Place, Token};
