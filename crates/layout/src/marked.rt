// What comes next in a sheet, together with its mark.
ghost use Rattle.std.specs.Prelude.{◌≡◌};
ghost use Rattle.layout.specs.Marks.{end_mark, Fitting, Fitting-prop, mark_of};
ghost use Rattle.layout.specs.declared.rule.Coming.TheVariants.{End as ending, Lexeme as typed};

use crate::rule::{Before, Coming, Mark};
use sheet::{Lexeme, Place};

// What comes, and the mark before it, if any. No block is due before a `{`.
#[derive(Clone, Copy)]
pub struct Marked {
    pub coming: Coming,
    pub mark: Option<Mark>,
    ghost fitting: { Fitting mark coming } by { Fitting-prop mark coming },
}

impl Marked {
    // A lexeme, by what stands before it.
    pub fn lexeme(before: Before, lexeme: Lexeme) -> Marked
        ensures coming { result.coming ≡ typed lexeme }
        ensures mark { result.mark ≡ mark_of before lexeme }
    {
        Marked {
            mark: before.mark_of(&lexeme),
            coming: Coming::Lexeme(lexeme),
        }
    }

    // The end, by what stands before it.
    pub fn end(before: Before, place: Place) -> Marked
        ensures coming { result.coming ≡ ending place }
        ensures mark { result.mark ≡ end_mark before }
    {
        Marked {
            mark: before.end_mark(),
            coming: Coming::End(place),
        }
    }
}
