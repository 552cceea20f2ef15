// What follows from the promises alone, for every parser: lists of kinds taken in turn, and any run of
// questions and operations.
ghost use Rattle.std.specs.Prelude.{◌≡◌, ◌<◌, ◌≤◌, true, ◌⊎◌, [], length, take as front, Decides, slice_index};
ghost use Rattle.parser.specs.Sets.{Begins};
ghost use Rattle.parser.specs.Meaning.{Alike, meaning, started};
ghost use Rattle.parser.specs.Runs.{after, BeginsWith, WithinReach, Answers, next, Agree, Made, SameForEver};

use crate::{Probing, Refused, Stepping};

// A question or an operation.
#[derive(Clone, Copy, Debug, PartialEq, Eq)]
pub enum Call {
    Viable(u32),
    Complete,
    Start,
    Take(u32),
    Mark,
    Back,
    Keep,
}

// What a question or an operation answers. No `Result`: `Done` is also what the four answer that cannot be refused.
#[derive(Clone, Copy, Debug, PartialEq, Eq)]
pub enum Answer {
    Told(bool),
    Done,
    Denied(Refused),
}

// Takes the kinds in turn until one is refused, and answers how many were taken. Every kind of a list that
// begins a list of the remainder is taken, as far as the number left goes. A `for` with its index: the parser changes at
// each turn, and a closure of `take_while` or `position` would have to change it. That no more are
// taken than there are (`within`) is said of other answers too, each of its own.
pub fn take_all<P: Stepping>(parser: &mut P, kinds: &[u32]) -> usize
    ensures within { result ≤ length kinds.now }
    ensures paid { result ≤ P.left parser.old }
    ensures steps { Alike (meaning P.Stepping parser.new) (after (front result kinds.now) (meaning P.Stepping parser.old)) }
    ensures stops { result < length kinds.now → (Begins (P.Probing.remainder parser.new) (slice_index kinds.now result) → ⊥) ⊎ (P.left parser.new ≡ 0) }
    ensures prefix { BeginsWith (P.Probing.remainder parser.old) kinds.now → length kinds.now ≤ P.left parser.old → result ≡ length kinds.now }
{
    for (i, kind) in kinds.iter().enumerate() {
        if let Err(_) = parser.take(*kind) {
            return i;
        }
    }
    kinds.len()
}

// Whether all of so many kinds were taken, and nothing more is wanted.
fn finished<P: Probing>(parser: &P, count: usize, all: usize) -> bool
    ensures { Decides result ((count ≡ all) × P.remainder parser.now []) }
{
    count == all && parser.complete()
}

// Whether the list is a sentence of the parser's language that its reach allows. It begins with a start and
// leaves the parser as a start does.
pub fn accepts<P: Stepping>(parser: &mut P, kinds: &[u32]) -> bool
    ensures decides { Decides result (WithinReach (meaning P.Stepping parser.old) kinds.now) }
    ensures fresh { Alike (meaning P.Stepping parser.new) (started (meaning P.Stepping parser.old)) }
{
    parser.start();
    let count = take_all(parser, kinds);
    let answer = finished(parser, count, kinds.len());
    parser.start();
    answer
}

// Asks or does what the call says. A `match` on a value: calls are kept, compared and made again.
pub fn perform<P: Stepping>(parser: &mut P, call: Call) -> Answer
    ensures told { Answers (meaning P.Stepping parser.old) call result }
    ensures means { Alike (meaning P.Stepping parser.new) (next call result (meaning P.Stepping parser.old)) }
{
    match call {
        Call::Viable(kind) => Answer::Told(parser.viable(kind)),
        Call::Complete => Answer::Told(parser.complete()),
        Call::Start => {
            parser.start();
            Answer::Done
        }
        Call::Take(kind) => match parser.take(kind) {
            Ok(()) => Answer::Done,
            Err(why) => Answer::Denied(why),
        },
        Call::Mark => {
            parser.mark();
            Answer::Done
        }
        Call::Back => {
            parser.back();
            Answer::Done
        }
        Call::Keep => {
            parser.keep();
            Answer::Done
        }
    }
}

// Whether two answers are the same. A function of its own: `!=` in the loop was tried, and the search gave up, since a proof
// has `==` on an enum as a test on its parts.
fn same(one: Answer, other: Answer) -> bool
    ensures { Decides result (one ≡ other) }
{
    one == other
}

// Makes the calls on both parsers up to the first that they answer differently, and tells whether they answered the same
// to each. Two that are alike answer the same and stay alike, for ever, whatever they are made of. A `for`: a closure of
// `all` would have to change both parsers.
pub fn agree<P: Stepping, Q: Stepping>(one: &mut P, other: &mut Q, calls: &[Call]) -> bool
    ensures told { Decides result (Agree (meaning P.Stepping one.old) (meaning Q.Stepping other.old) calls.now) }
    ensures made { Made (meaning P.Stepping one.old) (meaning Q.Stepping other.old) calls.now (meaning P.Stepping one.new) (meaning Q.Stepping other.new) }
    ensures alike { Alike (meaning P.Stepping one.old) (meaning Q.Stepping other.old) → (result ≡ true) × Alike (meaning P.Stepping one.new) (meaning Q.Stepping other.new) }
    ensures for_ever { Alike (meaning P.Stepping one.old) (meaning Q.Stepping other.old) → SameForEver (meaning P.Stepping one.old) (meaning Q.Stepping other.old) }
{
    for call in calls {
        let first = perform(one, *call);
        let second = perform(other, *call);
        if !same(first, second) {
            return false;
        }
    }
    true
}
