// A first-in first-out queue of copied elements, kept as a ring in a slice that the caller lends.
// It allocates nothing, each call takes constant time, and a full queue refuses in place of growing.

#![tactic(auto)]

mod refusal;
mod ring;
#[cfg(test)]
mod tests;

pub use refusal::Full;
pub use ring::Queue;
