// What comes is tried on the parser: the parser takes its tokens, or is as before.
ghost use Rattle.std.specs.Prelude.{◌≡◌, ℕ, ◌≤◌, [], Decides, MatchOption, None as none};
ghost use Rattle.arrayvec.specs.ArrayVec.{array_vec_len};
ghost use Rattle.parser.specs.Meaning.{SameMark, absent, meaning};
ghost use Rattle.layout.specs.Contexts.{Implicit, stacked};
ghost use Rattle.layout.specs.Drafts.{alone};
ghost use Rattle.layout.specs.Moves.{Attempts, Beside, Moves, Took, WholeAt};
ghost use Rattle.layout.specs.Rules.{Plain};
ghost use Rattle.layout.specs.declared.rule.Coming.TheVariants.{Lexeme as lexeme'};

use super::Resolver;
use crate::draft::Draft;
use crate::lay::lay;
use crate::marked::Marked;
use crate::rule::Coming;
use parser::{Probing, Refused, Stepping};
use sheet::{Kind, Lexeme, Reason};

// Whether the parser could end here, where the end comes.
fn is_whole<P: Probing>(parser: &P, coming: &Coming) -> bool
    ensures { Decides result (WholeAt (P.remainder parser.now) coming.now) }
{
    match coming {
        Coming::Lexeme(_) => true,
        Coming::End(_) => parser.complete(),
    }
}

// Whether a lexeme is no brace; its kind is any number, so it is compared as one.
pub(super) fn is_plain(lexeme: &Lexeme) -> bool
    ensures { Decides result (Plain lexeme.now) }
{
    lexeme.kind != Kind::OpenBrace.number() && lexeme.kind != Kind::CloseBrace.number()
}

impl<P: Stepping> Resolver<P> {
    // The rules over what comes, with the parser asked on the way. That only the parser moves (`Beside`) is said by each of
    // three methods, for its own call. The parser takes the tokens also where they are
    // refused later: the caller marks it before.
    fn attempt(&mut self, marked: &Marked, free: usize) -> Result<Draft, Reason>
        ensures told { Attempts self.old.contexts.items marked.now.mark marked.now.coming free (meaning P.Stepping self.old.parser) (meaning P.Stepping self.new.parser) result }
        ensures beside { Beside self.old self.new }
    {
        let draft = lay(&mut self.parser, self.contexts.as_slice(), marked)?;
        if !is_whole(&self.parser, &marked.coming) {
            return Err(Reason::NotComplete);
        }
        if free < draft.count(&marked.coming) {
            return Err(Reason::NoRoom);
        }
        Ok(draft)
    }

    // The rules over what comes: the parser takes the tokens if all is accepted, and else is as before. It is left
    // without a mark.
    pub(super) fn advance(&mut self, marked: &Marked, free: usize) -> Result<Draft, Reason>
        ensures told { Moves self.old.contexts.items marked.now.mark marked.now.coming free (meaning P.Stepping self.old.parser) (meaning P.Stepping self.new.parser) result }
        ensures beside { Beside self.old self.new }
        ensures unmarked { SameMark (P.Stepping.saved self.new.parser) absent }
    {
        self.parser.mark();
        let tried = self.attempt(marked, free);
        match tried {
            Ok(_) => self.parser.keep(),
            Err(_) => self.parser.back(),
        }
        tried
    }

    // Whether the innermost block is implicit, so that it may close before a lexeme that is not viable.
    fn may_close(&self) -> bool
        ensures { Decides result (Implicit (stacked self.now.contexts.items)) }
    {
        self.innermost().is_some_and(|context| context > 0)
    }

    // A lexeme that has no mark and is no brace: the parser takes it at once or says why not, and nothing has to be taken
    // back. It is left open where a block may close before it. The two refusals are told apart, so each is named.
    pub(super) fn take_directly(&mut self, lexeme: &Lexeme) -> Option<Result<(), Reason>>
        requires { Plain lexeme.now }
        ensures told { (free : ℕ) → 1 ≤ free → MatchOption result (Took [] (meaning P.Stepping self.old.parser) (meaning P.Stepping self.new.parser)) (λ x. Moves self.old.contexts.items none (lexeme' lexeme.now) free (meaning P.Stepping self.old.parser) (meaning P.Stepping self.new.parser) (alone (array_vec_len self.old.contexts) x)) }
        ensures beside { Beside self.old self.new }
    {
        match self.parser.take(lexeme.kind) {
            Ok(()) => Some(Ok(())),
            Err(Refused::ReachSpent) => Some(Err(Reason::ReachSpent)),
            Err(Refused::NotViable) if self.may_close() => None,
            Err(Refused::NotViable) => Some(Err(Reason::NotViable)),
        }
    }
}
