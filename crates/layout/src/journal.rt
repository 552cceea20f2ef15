// Runs of calls on a new resolver, made one after another and written down. The law of every run stands here.
ghost use Rattle.std.specs.Prelude.{◌≡◌, ◌≤◌, [], ◌++◌, IfOk, OnOk};
ghost use Rattle.parser.specs.Sets.{Same};
ghost use Rattle.queue.specs.Waiting.{room, SamePlaces, waiting};
ghost use Rattle.layout.specs.Calling.{stand, Writes};
ghost use Rattle.layout.specs.Journaled.{Noted, Replayed, free_places};
ghost use Rattle.layout.specs.Law.{Law};

use crate::call::{Answer, Call};
use crate::resolver::Resolver;
use crate::ticket::{Refusal, Ticket};
use parser::Stepping;
use queue::Queue;
use sheet::{Fault, Token};
use std::alloc::{AllocError, Global};

// The answers of a run, a call each, and all tokens that its calls wrote, one after another: an answer that counts
// tells how many of them are its own. Two lists and no list of pairs, since the law of every run speaks of the answers
// and of all tokens in order.
#[derive(Drop)]
pub struct Journal {
    pub answers: Vec<Answer>,
    pub tokens: Vec<Token>,
}

// At most so many places can be free for a call.
const MOST_FREE: usize = 255;

impl Call {
    // How many places the call finds free: none where it is lent no queue.
    fn free(self) -> u8
        ensures { result ≡ free_places self }
    {
        match self {
            Call::Feed { free, .. } | Call::Finish { free, .. } => free,
            Call::Begin | Call::GiveUp { .. } => 0,
        }
    }
}

// A ticket that is not needed any more.
fn spend(ticket: Ticket) {
    let Ticket { number: _ } = ticket;
}

// What a call answered that hands its ticket back where it refuses. This is no `From`, by which anyone could let a
// ticket go.
fn refusal(refused: Refusal) -> Fault
    ensures { result ≡ refused.fault }
{
    let Refusal { ticket, fault } = refused;
    spend(ticket);
    fault
}

// Makes a call with a ticket of the number that it says. A `match` on values: calls are kept and made again. Each answer is
// made by a `match` too, in which one sees where its ticket goes.
fn make<P: Stepping>(resolver: &mut Resolver<P>, call: Call, queue: &mut Queue<'_, Token>) -> Answer
    requires { free_places call ≡ room queue.old }
    ensures { Writes (stand P.Stepping resolver.old) call result (waiting queue.old) (waiting queue.new) (stand P.Stepping resolver.new) }
{
    match call {
        Call::Begin => match resolver.begin() {
            Ok(Ticket { number }) => Answer::Ticket(number),
            Err(fault) => Answer::Refused(fault),
        },
        Call::Feed { ticket, lexeme, .. } => {
            let ticket = Ticket { number: ticket };
            let fed = ticket.feed(resolver, lexeme, queue);
            spend(ticket);
            match fed {
                Ok(count) => Answer::Count(count),
                Err(fault) => Answer::Refused(fault),
            }
        }
        Call::Finish { ticket, end, .. } => match (Ticket { number: ticket }).finish(
            resolver, end, queue,
        ) {
            Ok(count) => Answer::Count(count),
            Err(refused) => Answer::Refused(refusal(refused)),
        },
        Call::GiveUp { ticket } => match (Ticket { number: ticket }).give_up(resolver) {
            Ok(()) => Answer::Closed,
            Err(refused) => Answer::Refused(refusal(refused)),
        },
    }
}

// Takes all waiting tokens out of a queue and writes them down behind others. One line empties a queue wherever one is
// emptied, and what becomes of the elements is each caller's own.
pub fn drain(queue: &mut Queue<'_, Token>, tokens: &mut Vec<Token>) -> Result<(), AllocError>
    ensures kept { OnOk result (tokens.new.items ≡ tokens.old.items ++ waiting queue.old) }
    ensures emptied { OnOk result (waiting queue.new ≡ []) }
    ensures places { SamePlaces queue.old queue.new }
{
    while let Some(token) = queue.take() {
        tokens.push(token)?;
    }
    Ok(())
}

// Makes a call with as many free places as it says, and writes down what it answered and wrote.
fn note<P: Stepping>(
    resolver: &mut Resolver<P>,
    call: Call,
    journal: &mut Journal,
) -> Result<(), AllocError>
    ensures { OnOk result (Noted (stand P.Stepping resolver.old) call journal.old.answers.items journal.new.answers.items journal.old.tokens.items journal.new.tokens.items (stand P.Stepping resolver.new)) }
{
    let mut places = [Token::default(); MOST_FREE];
    let mut queue = Queue::new(&mut places[..usize::from(call.free())]);
    let answer = make(resolver, call, &mut queue);
    journal.answers.push(answer)?;
    drain(&mut queue, &mut journal.tokens)
}

// Makes the calls on a new resolver over the parser, and writes down what they answered and wrote. A run is these three: an
// allocator, a first number and the calls.
pub fn replay<P: Stepping + Drop>(
    heap: Global,
    parser: P,
    first: u64,
    calls: &[Call],
) -> Result<Journal, AllocError>
    ensures { IfOk result (λ j. Replayed (P.Stepping.language parser) (P.Stepping.reach parser) first calls.now j.answers.items j.tokens.items) }
{
    let mut resolver = Resolver::new(parser, first);
    let mut journal = Journal {
        answers: Vec::new(heap),
        tokens: Vec::new(heap),
    };
    for call in calls {
        note(&mut resolver, *call, &mut journal)?;
    }
    Ok(journal)
}

// What two runs of the same calls answered and wrote.
#[derive(Drop)]
pub struct Journals {
    pub one: Journal,
    pub other: Journal,
}

// Makes the same calls on a new resolver over each of two parsers. The law of every run holds of them, whatever the
// parsers are: how a sheet is finished, that finished tokens can be fed again, and that alike parsers answer alike.
pub fn replay_both<P: Stepping + Drop, Q: Stepping + Drop>(
    heap: Global,
    one: P,
    other: Q,
    first: u64,
    calls: &[Call],
) -> Result<Journals, AllocError>
    ensures law { Law (P.Stepping.language one) (P.Stepping.reach one) (Q.Stepping.language other) (Q.Stepping.reach other) }
    ensures one { IfOk result (λ j. Replayed (P.Stepping.language one) (P.Stepping.reach one) first calls.now j.one.answers.items j.one.tokens.items) }
    ensures other { IfOk result (λ j. Replayed (Q.Stepping.language other) (Q.Stepping.reach other) first calls.now j.other.answers.items j.other.tokens.items) }
    ensures alike { IfOk result (λ j. Same (P.Stepping.language one) (Q.Stepping.language other) → P.Stepping.reach one ≡ Q.Stepping.reach other → (j.one.answers.items ≡ j.other.answers.items) × (j.one.tokens.items ≡ j.other.tokens.items)) }
{
    let one = replay(heap, one, first, calls)?;
    let other = replay(heap, other, first, calls)?;
    Ok(Journals { one, other })
}
