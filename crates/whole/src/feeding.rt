// Feeding what a text tells, lexeme by lexeme, with the tokens and the faults kept.
ghost use Rattle.std.specs.Prelude.{◌≡◌, [], ◌∷◌, map, IfOk, Ok as told_lexeme, OnOk};
ghost use Rattle.queue.specs.Waiting.{capacity, waiting};
ghost use Rattle.layout.specs.Calling.{stand};
ghost use Rattle.whole.specs.Feeding.{Keeps, Within};
ghost use Rattle.whole.specs.Keeping.{Gains};
ghost use Rattle.whole.specs.Whole.{end_of, readable, told};

use crate::keeper::Keeper;
use crate::progress::Progress;
use layout::{Resolver, Ticket};
use parser::Stepping;
use queue::Queue;
use reader::Reader;
use sheet::{Lexeme, Place};

// So many lexemes are read at once, as `speed` reads where it reads alone.
const LEXEMES: usize = 64;

// Feeds a lexeme and keeps what it writes, or why it is refused. This and the two below say the same of one lexeme, of all
// that wait and of a whole text.
fn feed_one<P: Stepping, K: Keeper>(
    ticket: &Ticket,
    resolver: &mut Resolver<P>,
    lexeme: Lexeme,
    progress: &mut Progress<K>,
) -> Result<(), K::Error>
    ensures within { Within (stand P.Stepping resolver.old) (stand P.Stepping resolver.new) }
    ensures keeps { OnOk result (Keeps (Gains K.kept) (stand P.Stepping resolver.old) ticket.now.number (told_lexeme lexeme ∷ []) progress.old progress.new (stand P.Stepping resolver.new)) }
{
    let mut queue = Queue::new(&mut progress.places);
    match ticket.feed(resolver, lexeme, &mut queue) {
        Ok(_) => progress.keeper.tokens(&mut queue),
        Err(fault) => progress.fault(fault),
    }
}

// Feeds all lexemes that wait.
fn feed_waiting<P: Stepping, K: Keeper>(
    ticket: &Ticket,
    resolver: &mut Resolver<P>,
    lexemes: &mut Queue<'_, Lexeme>,
    progress: &mut Progress<K>,
) -> Result<(), K::Error>
    ensures within { Within (stand P.Stepping resolver.old) (stand P.Stepping resolver.new) }
    ensures keeps { OnOk result (Keeps (Gains K.kept) (stand P.Stepping resolver.old) ticket.now.number (map told_lexeme (waiting lexemes.old)) progress.old progress.new (stand P.Stepping resolver.new)) }
    ensures taken { OnOk result (waiting lexemes.new ≡ []) }
    ensures size { capacity lexemes.new ≡ capacity lexemes.old }
{
    while let Some(lexeme) = lexemes.take() {
        feed_one(ticket, resolver, lexeme, progress)?;
    }
    Ok(())
}

// Feeds all of a text, and answers the place of its end; one that is too long is read as empty.
pub fn feed_all<P: Stepping, K: Keeper>(
    text: &[u8],
    ticket: &Ticket,
    resolver: &mut Resolver<P>,
    progress: &mut Progress<K>,
) -> Result<Place, K::Error>
    ensures within { Within (stand P.Stepping resolver.old) (stand P.Stepping resolver.new) }
    ensures keeps { OnOk result (Keeps (Gains K.kept) (stand P.Stepping resolver.old) ticket.now.number (told (readable text.now)) progress.old progress.new (stand P.Stepping resolver.new)) }
    ensures place { IfOk result (λ p. p ≡ end_of (readable text.now)) }
{
    let mut reader = Reader::open(text);
    let mut places = [Lexeme::default(); LEXEMES];
    let mut lexemes = Queue::new(&mut places);
    loop {
        let answer = reader.read(&mut lexemes);
        feed_waiting(ticket, resolver, &mut lexemes, progress)?;
        match answer {
            Ok(_) => return Ok(reader.place()),
            Err(stop) => progress.stop(stop)?,
        }
    }
}
