// What the benchmark in bench/ links: for each layer one function that does the layer's work on a whole text and answers
// a number made of all that came out, so that no part of the work can be left out.
// Each layer has a module of its own: reading, and resolving a sheet over the table parser.

#![tactic(auto)]

mod read;
mod resolve;
mod weighed;

pub use read::speed_read;
pub use resolve::speed_resolve;

#[cfg(test)]
mod tests;
