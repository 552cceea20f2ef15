// Bytes to lexemes: finds the lexemes of a sheet's text, each with its place, and refuses what is none.

#![tactic(auto)]

mod class;
mod cursor;
mod item;
mod reader;
mod run;
mod stop;
#[cfg(test)]
mod tests;

pub use class::{Class, class_of};
pub use reader::Reader;
pub use reader::calls::check;
pub use stop::{Stop, TooLong};
