// The table parser: what it holds now, what a mark holds, and the two interfaces.
ghost use Rattle.std.specs.Prelude.{◌≤◌, length, Decides};
ghost use Rattle.grammar.specs.Grammar.{LanguageOf};
ghost use Rattle.grammar.specs.Sheet.{sheet};
ghost use Rattle.parser.specs.Meaning.{Alike};
ghost use Rattle.table.specs.Level.{stack_of, remains, table_reach, mark_of, meaning_of, fresh};
ghost use Rattle.std.proofs.Common.{rules};

use crate::level::Level;
use parser::{Probing, Refused, Stepping, accepts};

#[derive(Drop)]
pub struct TableParser {
    present: Level,
    // What a mark holds, and whether there is one. An Option<Level> was tried: it writes all the places of a level at each
    // mark, and took 511 instructions a lexeme on the longest mixed sheet of bench/ in place of 342.
    held: Level,
    marked: bool,
}

impl TableParser {
    // A parser as a start leaves it: of the sheet grammar's language, with the whole reach and no mark.
    pub fn new() -> TableParser
        ensures { Alike (meaning_of result) fresh }
    {
        TableParser {
            present: Level::new(),
            held: Level::new(),
            marked: false,
        }
    }
}

impl Probing for TableParser {
    ghost remainder = { λ s. remains (stack_of s.present) };

    fn viable(&self, kind: u32) -> bool {
        self.present.viable(kind)
    }

    fn complete(&self) -> bool {
        self.present.complete()
    }
}

impl Stepping for TableParser {
    ghost language = { λ s. LanguageOf sheet };

    ghost reach = { λ s. table_reach };

    ghost left = { λ s. s.present.left };

    ghost saved = { λ s. mark_of s.marked s.held };

    ghost reach_small = { Prim.search rules };

    fn start(&mut self) {
        self.present.reset();
        self.marked = false;
    }

    fn take(&mut self, kind: u32) -> Result<(), Refused> {
        self.present.take(kind)
    }

    fn mark(&mut self) {
        self.held.copy(&self.present);
        self.marked = true;
    }

    fn back(&mut self) {
        if self.marked {
            self.present.copy(&self.held);
            self.marked = false;
        }
    }

    fn keep(&mut self) {
        self.marked = false;
    }
}

// Whether the kinds are a sentence of the sheet grammar, of at most 1,024 tokens.
pub fn is_sentence(kinds: &[u32]) -> bool
    ensures { Decides result (LanguageOf sheet kinds.now × (length kinds.now ≤ 1024)) }
{
    let mut parser = TableParser::new();
    accepts(&mut parser, kinds)
}
