// The class of each byte, by a table of 256 entries.
ghost use Rattle.std.specs.Prelude.{◌≡◌, ◌<◌};
ghost use Rattle.reader.specs.Classes.{class};

use self::Class::{Apostrophe, Blank, Digit, Letter, LineEnd, Point, Sign, Unreadable};
use sheet::Kind;

// What a byte can be in a text.
#[derive(Clone, Copy, Debug, PartialEq, Eq)]
pub enum Class {
    Blank,
    LineEnd,
    Letter,
    Digit,
    Apostrophe,
    Point,
    // The mark of a kind, which is a lexeme of its own.
    Sign(Kind),
    Unreadable,
}

// The signs of the table, by names short enough that it keeps several entries a line.
const OPEN_PAREN: Class = Sign(Kind::OpenParen);

const END_PAREN: Class = Sign(Kind::CloseParen);

const OPEN_BRACE: Class = Sign(Kind::OpenBrace);

const END_BRACE: Class = Sign(Kind::CloseBrace);

const OPERATOR: Class = Sign(Kind::Operator);

const COMMA: Class = Sign(Kind::Comma);

const SEMICOLON: Class = Sign(Kind::Semicolon);

const EQUALS: Class = Sign(Kind::Equals);

// By the number of the byte: a constant table, as its format asks.
static CLASSES: [Class; 256] = [
    // 0 to 31, with the tab, the line feed, the form feed and the carriage return.
    Unreadable, Unreadable, Unreadable, Unreadable, Unreadable, Unreadable, Unreadable, Unreadable,
    Unreadable, Blank, LineEnd, Unreadable, LineEnd, LineEnd, Unreadable, Unreadable, Unreadable,
    Unreadable, Unreadable, Unreadable, Unreadable, Unreadable, Unreadable, Unreadable, Unreadable,
    Unreadable, Unreadable, Unreadable, Unreadable, Unreadable, Unreadable, Unreadable,
    // The space to /.
    Blank, Unreadable, Unreadable, Unreadable, Unreadable, Unreadable, Unreadable, Apostrophe,
    OPEN_PAREN, END_PAREN, OPERATOR, OPERATOR, COMMA, OPERATOR, Point, OPERATOR,
    // 0 to 9.
    Digit, Digit, Digit, Digit, Digit, Digit, Digit, Digit, Digit, Digit,
    // : to @.
    Unreadable, SEMICOLON, Unreadable, EQUALS, Unreadable, Unreadable, Unreadable,
    // A to Z.
    Letter, Letter, Letter, Letter, Letter, Letter, Letter, Letter, Letter, Letter, Letter, Letter,
    Letter, Letter, Letter, Letter, Letter, Letter, Letter, Letter, Letter, Letter, Letter, Letter,
    Letter, Letter,
    // [ to `.
    Unreadable, Unreadable, Unreadable, Unreadable, Letter, Unreadable,
    // a to z.
    Letter, Letter, Letter, Letter, Letter, Letter, Letter, Letter, Letter, Letter, Letter, Letter,
    Letter, Letter, Letter, Letter, Letter, Letter, Letter, Letter, Letter, Letter, Letter, Letter,
    Letter, Letter,
    // { to 127.
    OPEN_BRACE, Unreadable, END_BRACE, Unreadable, Unreadable,
    // 128 to 255.
    Unreadable, Unreadable, Unreadable, Unreadable, Unreadable, Unreadable, Unreadable, Unreadable,
    Unreadable, Unreadable, Unreadable, Unreadable, Unreadable, Unreadable, Unreadable, Unreadable,
    Unreadable, Unreadable, Unreadable, Unreadable, Unreadable, Unreadable, Unreadable, Unreadable,
    Unreadable, Unreadable, Unreadable, Unreadable, Unreadable, Unreadable, Unreadable, Unreadable,
    Unreadable, Unreadable, Unreadable, Unreadable, Unreadable, Unreadable, Unreadable, Unreadable,
    Unreadable, Unreadable, Unreadable, Unreadable, Unreadable, Unreadable, Unreadable, Unreadable,
    Unreadable, Unreadable, Unreadable, Unreadable, Unreadable, Unreadable, Unreadable, Unreadable,
    Unreadable, Unreadable, Unreadable, Unreadable, Unreadable, Unreadable, Unreadable, Unreadable,
    Unreadable, Unreadable, Unreadable, Unreadable, Unreadable, Unreadable, Unreadable, Unreadable,
    Unreadable, Unreadable, Unreadable, Unreadable, Unreadable, Unreadable, Unreadable, Unreadable,
    Unreadable, Unreadable, Unreadable, Unreadable, Unreadable, Unreadable, Unreadable, Unreadable,
    Unreadable, Unreadable, Unreadable, Unreadable, Unreadable, Unreadable, Unreadable, Unreadable,
    Unreadable, Unreadable, Unreadable, Unreadable, Unreadable, Unreadable, Unreadable, Unreadable,
    Unreadable, Unreadable, Unreadable, Unreadable, Unreadable, Unreadable, Unreadable, Unreadable,
    Unreadable, Unreadable, Unreadable, Unreadable, Unreadable, Unreadable, Unreadable, Unreadable,
    Unreadable, Unreadable, Unreadable, Unreadable, Unreadable, Unreadable, Unreadable, Unreadable,
];

// What stands in the table, whose entries are counted from 0. A function of its own: the computed comparison is about it, and
// `class_of` is proved from its contract, so that a mistake there is refused for what it means.
fn entry(index: usize) -> Class
    requires { index < 256 }
    ensures { result ≡ class index }
{
    CLASSES[index]
}

// The class of a byte.
pub fn class_of(byte: u8) -> Class
    ensures { result ≡ class byte }
{
    entry(byte as usize)
}
