// Runs of bytes: how far a name or a number reaches, and which names are keywords.
ghost use Rattle.std.specs.Prelude.{◌≡◌, ◌<◌, ◌≤◌, Bool, false, length};
ghost use Rattle.reader.specs.Runs.{fraction, front, fronts, number_length, word_kind};
ghost use Rattle.reader.specs.Classes.{class, in_digits, in_name, is_gap};
ghost use Rattle.reader.specs.declared.class.Class.{Class};
ghost use Rattle.reader.specs.Parts.{AnswersAs, front_of, run_length};
ghost use Rattle.reader.specs.Places.{byte};

use crate::class::{Class, class_of};
use sheet::Kind;

// What a name goes on with.
fn in_name(class: Class) -> bool
    ensures { result ≡ in_name class }
{
    matches!(class, Class::Letter | Class::Digit | Class::Apostrophe)
}

// What digits go on with.
fn in_digits(class: Class) -> bool
    ensures { result ≡ in_digits class }
{
    matches!(class, Class::Digit)
}

// How many bytes at the front are of the classes that a test passes. That they are no more than there are (`within`) is
// said of each such answer by itself.
fn front_length<F: Fn(Class) -> bool>(bytes: &[u8], passes: F) -> usize
    requires { F.IsAlwaysCallable passes }
    ensures value { (p : Class → Bool) → AnswersAs p (F.post passes) → result ≡ fronts p bytes.now }
    ensures within { result ≤ length bytes.now }
{
    bytes
        .iter()
        .take_while(|byte| passes(class_of(**byte)))
        .count()
}

// How many bytes at the front are a point and digits. A point belongs to a number only if a digit follows. None are 0 bytes
// and no `None`: they are added to those before the point.
fn fraction_length(bytes: &[u8]) -> usize
    ensures value { result ≡ fraction bytes.now }
    ensures within { result ≤ length bytes.now }
{
    let [b'.', rest @ ..] = bytes else {
        return 0;
    };
    match front_length(rest, in_digits) {
        0 => 0,
        digits => 1 + digits,
    }
}

// How many bytes at the front are a number.
fn number_length(bytes: &[u8]) -> usize
    ensures value { result ≡ number_length bytes.now }
    ensures within { result ≤ length bytes.now }
{
    let whole = front_length(bytes, in_digits);
    whole + fraction_length(&bytes[whole..])
}

// The kind of a name: five names are keywords. Its proof is searched for and names no arm, so that an edit of a keyword is
// refused for what it means.
#[tactic(auto, using(std::proofs::lemmas::Grind::common_steps))]
fn word_kind(word: &[u8]) -> Kind
    ensures { result ≡ word_kind word.now }
{
    match word {
        b"let" => Kind::Let,
        b"in" => Kind::In,
        b"where" => Kind::Where,
        b"of" => Kind::Of,
        b"do" => Kind::Do,
        _ => Kind::Name,
    }
}

// A run of bytes that could be a lexeme.
#[derive(Clone, Copy)]
pub struct Run {
    pub kind: Kind,
    pub length: usize,
}

// The run at the front, or none where the first byte begins no lexeme.
pub fn front_run(bytes: &[u8]) -> Option<Run>
    requires some { 0 < length bytes.now }
    requires no_gap { is_gap (class (byte bytes.now 0)) ≡ false }
    ensures value { front bytes.now ≡ front_of result }
    ensures within { run_length result ≤ length bytes.now }
{
    match class_of(bytes[0]) {
        Class::Letter => {
            let length = front_length(bytes, in_name);
            let kind = word_kind(&bytes[..length]);
            Some(Run { kind, length })
        }
        Class::Sign(kind) => Some(Run { kind, length: 1 }),
        Class::Digit => Some(Run {
            kind: Kind::Number,
            length: number_length(bytes),
        }),
        _ => None,
    }
}
