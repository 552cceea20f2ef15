// A lexeme or a fault of a text.
ghost use Rattle.std.specs.Prelude.{◌≡◌, ◌<◌};
ghost use Rattle.reader.specs.Items.{fault_at, judged};

use crate::cursor::Cursor;
use crate::run::Run;
use sheet::{Fault, LAST_COLUMN, Lexeme, Reason};

// A name or a number has at most so many bytes.
const LONGEST_RUN: usize = 64;

// A lexeme or a fault, and where the reader stands after it.
#[derive(Clone, Copy)]
pub struct Found {
    pub what: Result<Lexeme, Fault>,
    pub after: Cursor,
}

// A fault at a place of the text, which has no layout context. A fault has its line and column itself, as a lexeme has.
pub fn fault(at: Cursor, reason: Reason) -> Fault
    ensures { result ≡ fault_at at reason }
{
    Fault {
        reason,
        line: at.line,
        column: at.column,
        context: None,
    }
}

// A run as a lexeme, unless it is too long or begins too far to the right.
pub fn judge(at: Cursor, run: Run) -> Result<Lexeme, Fault>
    requires { (at.offset < 65536) × (run.length < 65536) }
    ensures { result ≡ judged at run.kind run.length }
{
    if run.length > LONGEST_RUN {
        return Err(fault(at, Reason::RunTooLong));
    }
    if at.column > LAST_COLUMN {
        return Err(fault(at, Reason::ColumnTooFar));
    }
    Ok(Lexeme {
        kind: run.kind.number(),
        line: at.line,
        column: at.column,
        first: at.first,
        offset: at.offset as u32,
        length: run.length as u32,
    })
}
