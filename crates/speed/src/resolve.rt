// Resolving: a text from its first byte to its end, lexeme by lexeme on a new resolver over the table parser.
ghost use Rattle.std.specs.Prelude.{◌≡◌};
ghost use Rattle.grammar.specs.Grammar.{LanguageOf};
ghost use Rattle.grammar.specs.Sheet.{sheet as sheet_grammar};
ghost use Rattle.layout.specs.Calling.{standing};
ghost use Rattle.layout.specs.Service.{new};
ghost use Rattle.table.specs.Level.{table_reach};
ghost use Rattle.whole.specs.Whole.{readable};
ghost use Rattle.speed.specs.Resolved.{Resolved};
ghost use Rattle.speed.specs.Sums.{token_weight};
ghost use Rattle.speed.specs.Tallies.{Counted, counted_keeping};

use crate::weighed::{Weighed, take_all};
use layout::Resolver;
use parser::Stepping;
use queue::Queue;
use sheet::{Fault, Token};
use std::convert::Infallible;
use table::TableParser;
use whole::{Keeper, resolve_with};

impl Weighed for Token {
    ghost weight = { token_weight };

    fn weigh(self) -> u64 {
        u64::from(self.kind)
            + u64::from(self.line)
            + u64::from(self.column)
            + u64::from(self.offset)
            + u64::from(self.length)
    }
}

// The number so far.
#[derive(Drop)]
struct Tally {
    sum: u64,
}

// Tokens and faults are added up, which cannot fail.
impl Keeper for Tally {
    ghost kept = { Counted };

    type Error = Infallible;

    fn tokens(&mut self, queue: &mut Queue<'_, Token>) -> Result<(), Infallible> {
        self.sum = take_all(queue, self.sum);
        Ok(())
    }

    fn fault(&mut self, fault: Fault) -> Result<(), Infallible> {
        self.sum = self.sum.wrapping_add(fault.weigh());
        Ok(())
    }

    ghost laws = { counted_keeping };
}

// Resolves a text on a new resolver.
fn resolve<P: Stepping>(text: &[u8], resolver: &mut Resolver<P>) -> u64
    requires { standing resolver.old ≡ new 0 }
    ensures { Resolved (P.Stepping.language resolver.old.parser) (P.Stepping.reach resolver.old.parser) (readable text.now) result }
{
    match resolve_with(text, resolver, Tally { sum: 0 }) {
        Ok(tally) => tally.sum,
        Err(never) => match never {},
    }
}

// Resolves a text and adds up all tokens and faults; one that is too long is read as empty.
#[unsafe(no_mangle)]
pub extern "C" fn speed_resolve(text: &[u8]) -> u64
    ensures { Resolved (LanguageOf sheet_grammar) table_reach (readable text.now) result }
{
    let mut resolver = Resolver::new(TableParser::new(), 0);
    resolve(text, &mut resolver)
}
