// The layout rules: where blocks open, separate and close in a sheet that is typed by indentation, after function L
// of the Haskell 2010 Report, section 10.3.

#![tactic(auto)]

mod call;
mod draft;
mod journal;
mod lay;
mod marked;
mod resolver;
mod rule;
#[cfg(test)]
mod tests;
mod ticket;
mod write;

pub use call::{Answer, Call};
pub use journal::{Journal, Journals, drain, replay, replay_both};
pub use resolver::{OpenBlocks, Resolver};
pub use rule::{Before, Coming, Mark, Rule, rule_at};
pub use ticket::{Refusal, Ticket};
