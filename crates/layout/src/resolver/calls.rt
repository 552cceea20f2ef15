// The calls of a service: new, begin, feed, finish and give up.
ghost use Rattle.std.specs.Prelude.{◌≡◌, ◌+◌, ◌^◌, ◌<◌, [], IfErr};
ghost use Rattle.parser.specs.Meaning.{meaning, started};
ghost use Rattle.queue.specs.Waiting.{room, SamePlaces, waiting};
ghost use Rattle.layout.specs.Calling.{begin_answer, Calls, feed_answer, finish_answer, give_up_answer, next_of, stand, standing, Writes};
ghost use Rattle.layout.specs.Contexts.{stacked};
ghost use Rattle.layout.specs.First.{innermost_of};
ghost use Rattle.layout.specs.Moves.{Took};
ghost use Rattle.layout.specs.Service.{fault, new};
ghost use Rattle.layout.specs.declared.call.Call.TheVariants.{Begin, Feed, Finish, GiveUp};

use super::Resolver;
use crate::rule::{Before, Coming};
use crate::ticket::{Refusal, Ticket};
use arrayvec::ArrayVec;
use parser::Stepping;
use queue::Queue;
use sheet::{Fault, Lexeme, Place, Reason, Token};

// The place of a refusal that no place of a sheet was given for.
const NOWHERE: Place = Place { line: 0, column: 0 };

// The number after another, if there is any.
fn following(number: u64) -> Option<u64>
    ensures range { number < 2 ^ 64 }
    ensures value { next_of result ≡ number + 1 }
{
    number.checked_add(1)
}

impl<P> Resolver<P> {
    // The innermost context.
    pub(super) fn innermost(&self) -> Option<u32>
        ensures { result ≡ innermost_of (stacked self.now.contexts.items) }
    {
        self.contexts.last().copied()
    }

    // A refusal at a place, with the innermost context.
    fn fault(&self, reason: Reason, place: Place) -> Fault
        ensures { result ≡ fault (standing self.now) place.line place.column reason }
    {
        Fault {
            reason,
            line: place.line,
            column: place.column,
            context: self.innermost(),
        }
    }
}

impl<P: Stepping> Resolver<P> {
    // A resolver over a parser that is started, with no sheet open; the first sheet gets the first number.
    pub fn new(parser: P, first: u64) -> Resolver<P>
        ensures stands { standing result ≡ new first }
        ensures parser { Took [] (started (meaning P.Stepping parser)) (meaning P.Stepping result.parser) }
    {
        let mut parser = parser;
        parser.start();
        Resolver {
            parser,
            contexts: ArrayVec::new(),
            before: Before::Nothing,
            sheet: None,
            next: Some(first),
        }
    }

    // Opens a sheet and hands out its ticket.
    pub fn begin(&mut self) -> Result<Ticket, Fault>
        ensures { Calls (stand P.Stepping self.old) Begin (begin_answer result) [] (stand P.Stepping self.new) }
    {
        if self.sheet.is_some() {
            return Err(self.fault(Reason::SheetOpen, NOWHERE));
        }
        let Some(number) = self.next else {
            return Err(self.fault(Reason::NumbersSpent, NOWHERE));
        };
        self.parser.start();
        self.before = Before::Nothing;
        self.sheet = Some(number);
        self.next = following(number);
        Ok(Ticket { number })
    }
}

impl Ticket {
    // Feeds a lexeme of the sheet: writes its tokens and answers how many, or leaves all as it was.
    pub fn feed<P: Stepping>(
        &self,
        resolver: &mut Resolver<P>,
        lexeme: Lexeme,
        queue: &mut Queue<'_, Token>,
    ) -> Result<usize, Fault>
        ensures writes { Writes (stand P.Stepping resolver.old) (Feed self.now.number lexeme (room queue.old)) (feed_answer result) (waiting queue.old) (waiting queue.new) (stand P.Stepping resolver.new) }
        ensures places { SamePlaces queue.old queue.new }
    {
        match resolver.feed_directly(self.number, &lexeme, queue.free()) {
            Some(Ok(())) => {
                let _ = queue.put(Token::from(lexeme));
                Ok(1)
            }
            Some(Err(reason)) => Err(resolver.fault(reason, lexeme.place())),
            None => self.feed_by_rules(resolver, lexeme, queue),
        }
    }

    // The same by the rules in full, the rare way, kept apart. Both cases go on with the resolver or the queue: a `match`,
    // here and in `finish`, and no `map` with a `map_err`.
    fn feed_by_rules<P: Stepping>(
        &self,
        resolver: &mut Resolver<P>,
        lexeme: Lexeme,
        queue: &mut Queue<'_, Token>,
    ) -> Result<usize, Fault>
        ensures writes { Writes (stand P.Stepping resolver.old) (Feed self.now.number lexeme (room queue.old)) (feed_answer result) (waiting queue.old) (waiting queue.new) (stand P.Stepping resolver.new) }
        ensures places { SamePlaces queue.old queue.new }
    {
        match resolver.feed_lexeme(self.number, lexeme, queue.free()) {
            Ok(draft) => Ok(draft.write(&Coming::Lexeme(lexeme), queue)),
            Err(reason) => Err(resolver.fault(reason, lexeme.place())),
        }
    }

    // Finishes the sheet: writes its last tokens, answers how many and closes it, or leaves all as it was and hands the
    // ticket back.
    pub fn finish<P: Stepping>(
        self,
        resolver: &mut Resolver<P>,
        end: Place,
        queue: &mut Queue<'_, Token>,
    ) -> Result<usize, Refusal>
        ensures writes { Writes (stand P.Stepping resolver.old) (Finish self.number «end» (room queue.old)) (finish_answer result) (waiting queue.old) (waiting queue.new) (stand P.Stepping resolver.new) }
        ensures ticket { IfErr result (λ e. e.ticket.number ≡ self.number) }
        ensures places { SamePlaces queue.old queue.new }
    {
        match resolver.finish_sheet(self.number, end, queue.free()) {
            Ok(draft) => {
                let Ticket { number: _ } = self;
                Ok(draft.write(&Coming::End(end), queue))
            }
            Err(reason) => Err(Refusal {
                ticket: self,
                fault: resolver.fault(reason, end),
            }),
        }
    }

    // Closes the sheet unfinished; what was written of it stays where it is.
    pub fn give_up<P: Stepping>(self, resolver: &mut Resolver<P>) -> Result<(), Refusal>
        ensures calls { Calls (stand P.Stepping resolver.old) (GiveUp self.number) (give_up_answer result) [] (stand P.Stepping resolver.new) }
        ensures ticket { IfErr result (λ e. e.ticket.number ≡ self.number) }
    {
        if !resolver.is_open(self.number) {
            return Err(Refusal {
                ticket: self,
                fault: resolver.fault(Reason::WrongTicket, NOWHERE),
            });
        }
        let Ticket { number: _ } = self;
        resolver.close();
        Ok(())
    }
}
