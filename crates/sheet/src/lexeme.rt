// What a sheet is made of: kinds, the lexemes that the reader finds and the tokens that the resolver writes.
ghost use Rattle.std.specs.Prelude.{◌≡◌, Some};
ghost use Rattle.sheet.specs.Kinds.{kind_number, Numbered, opens};
ghost use Rattle.sheet.specs.Shown.{lexeme_text, token_numbers};
ghost use Rattle.sheet.specs.Tokens.{written};

use std::fmt;

// The fifteen kinds of lexemes.
#[derive(Clone, Copy, Debug, PartialEq, Eq)]
pub enum Kind {
    Name = 1,
    Number = 2,
    OpenBrace = 3,
    CloseBrace = 4,
    Semicolon = 5,
    OpenParen = 6,
    CloseParen = 7,
    Equals = 8,
    Comma = 9,
    Operator = 10,
    Let = 11,
    In = 12,
    Where = 13,
    Of = 14,
    Do = 15,
}

impl Kind {
    // The number by which the outside knows the kind. No trait of numbers stands above this and its like: it would be one
    // crate more for each refusal to stand on.
    pub fn number(self) -> u32
        ensures { result ≡ kind_number self }
    {
        self as u32
    }

    // Whether a block follows: these four keywords open one.
    pub fn opens_block(self) -> bool
        ensures { result ≡ opens self }
    {
        matches!(self, Kind::Let | Kind::Where | Kind::Of | Kind::Do)
    }
}

// A number that no kind has.
#[derive(Clone, Copy, Debug, PartialEq, Eq)]
pub struct NoKind;

// The kind of a number.
impl TryFrom<u32> for Kind {
    type Error = NoKind;

    ghost try_from_gives = { Numbered };

    fn try_from(number: u32) -> Result<Kind, NoKind> {
        match number {
            1 => Ok(Kind::Name),
            2 => Ok(Kind::Number),
            3 => Ok(Kind::OpenBrace),
            4 => Ok(Kind::CloseBrace),
            5 => Ok(Kind::Semicolon),
            6 => Ok(Kind::OpenParen),
            7 => Ok(Kind::CloseParen),
            8 => Ok(Kind::Equals),
            9 => Ok(Kind::Comma),
            10 => Ok(Kind::Operator),
            11 => Ok(Kind::Let),
            12 => Ok(Kind::In),
            13 => Ok(Kind::Where),
            14 => Ok(Kind::Of),
            15 => Ok(Kind::Do),
            _ => Err(NoKind),
        }
    }
}

// A lexeme begins at most at this column.
pub const LAST_COLUMN: u32 = 4_095;

// A line and a column, both counted from 1.
#[derive(Clone, Copy, Debug, PartialEq, Eq)]
pub struct Place {
    pub line: u32,
    pub column: u32,
}

// A lexeme of a sheet. The kind is a number and no `Kind`: a caller may hand over any number, and the layer that
// it reaches refuses what is no kind. The default is none of a sheet: a queue's places hold it before a lexeme comes.
#[derive(Clone, Copy, Debug, Default, PartialEq, Eq)]
pub struct Lexeme {
    pub kind: u32,
    pub line: u32,
    pub column: u32,
    // Only blanks stand before it on its line.
    pub first: bool,
    pub offset: u32,
    pub length: u32,
}

// A token as it is written: a lexeme without its flag, or one that was inserted (offset and length are then 0). It is no
// part of `Lexeme`, and no `Place` is part of either: each rule and each caller would have to name the part.
// The default is none of a sheet: a queue's places hold it before a token comes.
#[derive(Clone, Copy, Debug, Default, PartialEq, Eq)]
pub struct Token {
    pub kind: u32,
    pub line: u32,
    pub column: u32,
    pub offset: u32,
    pub length: u32,
}

impl Lexeme {
    // Where it begins.
    pub fn place(&self) -> Place
        ensures { result ≡ record { line = self.now.line; column = self.now.column } }
    {
        Place {
            line: self.line,
            column: self.column,
        }
    }
}

// A lexeme as it is written: without its flag.
impl From<Lexeme> for Token {
    ghost from_gives = { λ lexeme token. token ≡ written lexeme };

    fn from(lexeme: Lexeme) -> Token {
        Token {
            kind: lexeme.kind,
            line: lexeme.line,
            column: lexeme.column,
            offset: lexeme.offset,
            length: lexeme.length,
        }
    }
}

// Line, column, kind, flag (1 or 0), offset and length.
impl fmt::Display for Lexeme {
    ghost output = { λ x. Some (lexeme_text x) };

    fn fmt<W: fmt::Write>(&self, f: &mut fmt::Formatter<W>) -> fmt::Result {
        write!(
            f,
            "{} {} {} {} {} {}",
            self.line,
            self.column,
            self.kind,
            u8::from(self.first),
            self.offset,
            self.length
        )
    }
}

// Kind, line, column, offset and length.
impl fmt::Display for Token {
    ghost output = { λ x. Some (token_numbers x) };

    fn fmt<W: fmt::Write>(&self, f: &mut fmt::Formatter<W>) -> fmt::Result {
        write!(
            f,
            "{} {} {} {} {}",
            self.kind, self.line, self.column, self.offset, self.length
        )
    }
}
