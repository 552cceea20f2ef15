// Why a sheet, or a call for it, is refused, and where.
ghost use Rattle.std.specs.Prelude.{◌≡◌, Some};
ghost use Rattle.sheet.specs.Faults.{known, layer_number};
ghost use Rattle.sheet.specs.Shown.{context_text, fault_text};

use std::fmt;

// The layer that refuses, with the number by which the outside knows it.
#[derive(Clone, Copy, Debug, PartialEq, Eq)]
pub enum Layer {
    Text = 1,
    Layout = 2,
    Parser = 3,
}

// Each way in which a layer refuses, with the number by which the outside knows it.
#[derive(Clone, Copy, Debug, PartialEq, Eq)]
pub enum Reason {
    // Text: a byte that begins no lexeme.
    UnreadableByte = 1,
    // Text: a name or a number of more than 64 bytes.
    RunTooLong = 2,
    // Text: a lexeme that begins past column 4,095.
    ColumnTooFar = 3,
    // Layout: a sheet is open already.
    SheetOpen = 5,
    // Layout: the last sheet number was handed out.
    NumbersSpent = 6,
    // Layout: the ticket is not the open sheet's.
    WrongTicket = 7,
    // Layout: a kind outside 1 to 15, or a column outside 1 to 4,095.
    BadLexeme = 8,
    // Layout: a typed `}` that closes no explicit block.
    StrayClose = 9,
    // Layout: 64 blocks are open.
    TooDeep = 10,
    // Parser: no sentence goes on with this token.
    NotViable = 11,
    // Parser: it takes no more tokens.
    ReachSpent = 12,
    // Layout: the queue has fewer free places than tokens to write.
    NoRoom = 13,
    // Layout: the sheet ends inside an explicit block.
    BlockOpen = 14,
    // Parser: the sheet ends before its sentence does.
    NotComplete = 15,
}

// A refusal with its place and the innermost layout context before the call: the column of an implicit block, 0 for
// an explicit one, or absent. In the text layer it is always absent.
#[derive(Clone, Copy, Debug, PartialEq, Eq)]
pub struct Fault {
    pub reason: Reason,
    pub line: u32,
    pub column: u32,
    pub context: Option<u32>,
}

impl Layer {
    pub fn number(self) -> u32
        ensures { result ≡ layer_number self }
    {
        self as u32
    }
}

impl Reason {
    pub fn number(self) -> u32
        ensures { result ≡ (known self).number }
    {
        self as u32
    }

    // The layer that refuses so: a question about the refusal, and no conversion.
    pub fn layer(self) -> Layer
        ensures { result ≡ (known self).layer }
    {
        match self {
            Reason::UnreadableByte | Reason::RunTooLong | Reason::ColumnTooFar => Layer::Text,
            Reason::NotViable | Reason::ReachSpent | Reason::NotComplete => Layer::Parser,
            _ => Layer::Layout,
        }
    }
}

// A context on its own.
#[derive(Clone, Copy)]
struct Context(Option<u32>);

// A column, or `-` for an absent one.
impl fmt::Display for Context {
    ghost output = { λ x. Some (context_text x.0) };

    fn fmt<W: fmt::Write>(&self, f: &mut fmt::Formatter<W>) -> fmt::Result {
        match self.0 {
            Some(column) => write!(f, "{column}"),
            None => write!(f, "-"),
        }
    }
}

// Line, column, layer, number and context.
impl fmt::Display for Fault {
    ghost output = { λ x. Some (fault_text x) };

    fn fmt<W: fmt::Write>(&self, f: &mut fmt::Formatter<W>) -> fmt::Result {
        let layer = self.reason.layer().number();
        let number = self.reason.number();
        write!(
            f,
            "{} {} {layer} {number} {}",
            self.line,
            self.column,
            Context(self.context)
        )
    }
}
