// A whole sheet on a resolver: begun, fed, and finished or given up.
ghost use Rattle.std.specs.Prelude.{◌≡◌, [], IfOk, Some as open_sheet, MatchResult};
ghost use Rattle.parser.specs.Meaning.{meaning};
ghost use Rattle.layout.specs.Calling.{Calls, stand, standing};
ghost use Rattle.layout.specs.declared.call.Answer.TheVariants.{Closed as closed_answer};
ghost use Rattle.layout.specs.declared.call.Call.TheVariants.{GiveUp as give_up_call};
ghost use Rattle.whole.specs.Feeding.{Brings, Closes, Comes, Fails, Ran, SameParser, Shut};
ghost use Rattle.whole.specs.Whole.{Lawful, outcome, readable};

use crate::feeding::feed_all;
use crate::keeper::Keeper;
use crate::kept::Kept;
use crate::outcome::{Failure, Outcome};
use crate::progress::Progress;
use layout::{Refusal, Resolver, Ticket};
use parser::Stepping;
use queue::Queue;
use reader::check;
use sheet::Place;
use std::alloc::Global;

// Gives up the open sheet. That it is the ticket's stands in three contracts of this file and in no struct of the two: such
// a struct would hold the lent resolver, and each contract would speak of what was lent besides. So does `Shut`.
fn give_up<P: Stepping>(ticket: Ticket, resolver: &mut Resolver<P>)
    requires { (standing resolver.old).sheet ≡ open_sheet ticket.number }
    ensures calls { Calls (stand P.Stepping resolver.old) (give_up_call ticket.number) closed_answer [] (stand P.Stepping resolver.new) }
    ensures shut { Shut (stand P.Stepping resolver.old) (stand P.Stepping resolver.new) }
{
    ticket.give_up(resolver).unwrap();
}

// The end of the open sheet: it is given up if anything was refused of it, and else finished; where that is refused it
// is given up too.
fn conclude<P: Stepping, K: Keeper>(
    ticket: Ticket,
    resolver: &mut Resolver<P>,
    end: Place,
    progress: Progress<K>,
) -> Result<K, K::Error>
    requires { (standing resolver.old).sheet ≡ open_sheet ticket.number }
    ensures closes { IfOk result (λ k. Closes K.kept (stand P.Stepping resolver.old) ticket.number «end» progress k (standing resolver.new)) }
    ensures shut { Shut (stand P.Stepping resolver.old) (stand P.Stepping resolver.new) }
{
    let mut progress = progress;
    if progress.refused {
        give_up(ticket, resolver);
        return Ok(progress.keeper);
    }
    let mut queue = Queue::new(&mut progress.places);
    match ticket.finish(resolver, end, &mut queue) {
        Ok(_) => progress.keeper.tokens(&mut queue)?,
        Err(Refusal { ticket, fault }) => {
            give_up(ticket, resolver);
            progress.keeper.fault(fault)?;
        }
    }
    Ok(progress.keeper)
}

// The rest of a sheet that was begun. No `?` on what feeding answers: the ticket has to be given up first.
fn run<P: Stepping, K: Keeper>(
    text: &[u8],
    ticket: Ticket,
    resolver: &mut Resolver<P>,
    keeper: K,
) -> Result<K, K::Error>
    requires { (standing resolver.old).sheet ≡ open_sheet ticket.number }
    ensures ran { IfOk result (λ k. Ran K.kept (stand P.Stepping resolver.old) ticket.number (readable text.now) keeper k (standing resolver.new)) }
    ensures shut { Shut (stand P.Stepping resolver.old) (stand P.Stepping resolver.new) }
{
    let mut progress = Progress::new(keeper);
    match feed_all(text, &ticket, resolver, &mut progress) {
        Ok(end) => conclude(ticket, resolver, end, progress),
        Err(error) => {
            give_up(ticket, resolver);
            Err(error)
        }
    }
}

// What a keeper keeps of a whole sheet: begins it, feeds all that the text tells, and finishes the sheet, or gives it
// up if anything was refused. A text that is too long is read as empty. Afterwards the resolver is ready for the next
// sheet, if it was before.
#[tactic(auto, using(crate::proofs::Sheets::brings_not_begun))]
pub fn resolve_with<P: Stepping, K: Keeper>(
    text: &[u8],
    resolver: &mut Resolver<P>,
    keeper: K,
) -> Result<K, K::Error>
    ensures brings { IfOk result (λ k. Brings K.kept (stand P.Stepping resolver.old) (readable text.now) keeper k (standing resolver.new)) }
    ensures parser { SameParser (meaning P.Stepping resolver.old.parser) (meaning P.Stepping resolver.new.parser) }
    ensures sheet { (standing resolver.new).sheet ≡ (standing resolver.old).sheet }
{
    match resolver.begin() {
        Ok(ticket) => run(text, ticket, resolver, keeper),
        Err(fault) => {
            let mut keeper = keeper;
            keeper.fault(fault)?;
            Ok(keeper)
        }
    }
}

// Turns a text into its tokens, or tells what was refused of it: begins a sheet, feeds all that the text tells, and
// finishes the sheet, or gives it up if anything was refused. Afterwards the resolver is ready for the next sheet, if
// it was before.
pub fn resolve<P: Stepping>(
    heap: Global,
    text: &[u8],
    resolver: &mut Resolver<P>,
) -> Result<Outcome, Failure>
    ensures comes { MatchResult result (λ o. Comes (stand P.Stepping resolver.old) text.now (outcome o) (standing resolver.new)) (λ e. Fails text.now resolver.old e resolver.new) }
    ensures law { IfOk result (λ o. Lawful (P.Stepping.language resolver.old.parser) text.now (outcome o)) }
    ensures parser { SameParser (meaning P.Stepping resolver.old.parser) (meaning P.Stepping resolver.new.parser) }
    ensures sheet { (standing resolver.new).sheet ≡ (standing resolver.old).sheet }
{
    check(text)?;
    let kept = resolve_with(text, resolver, Kept::new(heap))?;
    Ok(kept.outcome())
}
