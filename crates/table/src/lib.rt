// The LL(1) table parser of the sheet grammar: a stack of symbols, which goes by what a constant table's expansions
// lead to, and implements the stepping interface with a reach of 1,024. docs/parsers.md says how it works.

#![tactic(auto)]

mod entries;
mod level;
mod steps;
mod table_parser;
mod walk;

pub use entries::{entries_filled, entry};
pub use table_parser::{TableParser, is_sentence};

#[cfg(test)]
mod tests;
