// A whole sheet: from its text to its tokens, or to all that was refused of it, over any parser.

#![tactic(auto)]

mod feeding;
mod keeper;
mod kept;
mod outcome;
mod progress;
mod sheet_run;
mod shown;

pub use keeper::Keeper;
pub use outcome::{Failure, Outcome};
pub use sheet_run::{resolve, resolve_with};
pub use shown::listing;
