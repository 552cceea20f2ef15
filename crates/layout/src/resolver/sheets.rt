// The open sheet: what is accepted of it, and how it is left where something is not.
ghost use Rattle.std.specs.Prelude.{◌≡◌, ◌≤◌, true, [], length, is_some, Some, Decides, MatchOption, None as none};
ghost use Rattle.arrayvec.specs.ArrayVec.{array_vec_len};
ghost use Rattle.parser.specs.Meaning.{meaning};
ghost use Rattle.layout.specs.Calling.{Fed, Finished, shut, stand, standing};
ghost use Rattle.layout.specs.Contexts.{rises, stacked};
ghost use Rattle.layout.specs.Drafts.{alone, contexts_of};
ghost use Rattle.layout.specs.Marks.{mark_of};
ghost use Rattle.layout.specs.Moves.{Around, Took};
ghost use Rattle.layout.specs.Rules.{Plain};
ghost use Rattle.layout.specs.Service.{Good};

use super::Resolver;
use super::moves::is_plain;
use crate::draft::Draft;
use crate::marked::Marked;
use crate::rule::Before;
use parser::Stepping;
use sheet::{LAST_COLUMN, Lexeme, Place, Reason};

// Whether a lexeme may be fed: it has one of the fifteen kinds, and a column within the limit.
fn is_good(lexeme: &Lexeme) -> bool
    ensures { Decides result (Good lexeme.now) }
{
    (1..=15).contains(&lexeme.kind) && (1..=LAST_COLUMN).contains(&lexeme.column)
}

impl<P> Resolver<P> {
    // Closes the sheet, with all its blocks. What is taken out of an `ArrayVec` is written over in a loop: here and below
    // it is kept out of the callers' code, where it makes most feeds longer.
    #[inline(never)]
    pub(super) fn close(&mut self)
        ensures standing { standing self.new ≡ shut (standing self.old) }
        ensures parser { self.new.parser ≡ self.old.parser }
    {
        self.contexts.clear();
        self.sheet = None;
    }

    // Whether the open sheet has this number.
    pub(super) fn is_open(&self, number: u64) -> bool
        ensures { Decides result (self.now.sheet ≡ Some number) }
    {
        self.sheet == Some(number)
    }

    // Puts the contexts that a draft leaves in the place of the present ones.
    #[inline(never)]
    fn settle(&mut self, draft: Draft)
        requires within { draft.depth ≤ array_vec_len self.old.contexts }
        requires room { length (contexts_of self.old.contexts.items draft) ≤ 64 }
        requires rising { rises (contexts_of self.old.contexts.items draft) ≡ true }
        requires sheet { is_some self.old.sheet ≡ true }
        ensures contexts { stacked self.new.contexts.items ≡ contexts_of self.old.contexts.items draft }
        ensures around { Around self.old self.new }
    {
        self.contexts.truncate(draft.depth);
        if let Some(context) = draft.opened {
            self.contexts.push(context);
        }
    }
}

impl<P: Stepping> Resolver<P> {
    // Whether a lexeme of the open sheet can be taken directly: it has no mark and is no brace, and a place is free. A ticket's
    // number and a queue's room are two parameters here and below: they have nothing in common.
    fn is_direct(&self, number: u64, lexeme: &Lexeme, free: usize) -> bool
        ensures { result ≡ true → (1 ≤ free) × (self.now.sheet ≡ Some number) × Good lexeme.now × (mark_of self.now.before lexeme.now ≡ none) × Plain lexeme.now }
    {
        free > 0
            && self.is_open(number)
            && is_good(lexeme)
            && is_plain(lexeme)
            && self.before.mark_of(lexeme).is_none()
    }

    // The rules over a lexeme that can be taken directly, as most can; nothing is altered where it is left open.
    pub(super) fn feed_directly(
        &mut self,
        number: u64,
        lexeme: &Lexeme,
        free: usize,
    ) -> Option<Result<(), Reason>>
        ensures { MatchOption result (Took [] (meaning P.Stepping self.old.parser) (meaning P.Stepping self.new.parser) × (standing self.new ≡ standing self.old)) (λ x. Fed (stand P.Stepping self.old) number lexeme.now free (stand P.Stepping self.new) (alone (array_vec_len self.old.contexts) x)) }
    {
        if !self.is_direct(number, lexeme, free) {
            return None;
        }
        // By patterns: with `?` and `is_ok()` the search gave up on what is promised here.
        match self.take_directly(lexeme) {
            None => None,
            Some(Err(reason)) => Some(Err(reason)),
            Some(Ok(())) => {
                self.before = Before::after(lexeme.kind);
                Some(Ok(()))
            }
        }
    }

    // The rules over a lexeme: all of it is accepted, or nothing is altered. It shares with `finish_sheet` the order of the
    // steps alone: what is tested before and what is done after is another thing in each.
    pub(super) fn feed_lexeme(
        &mut self,
        number: u64,
        lexeme: Lexeme,
        free: usize,
    ) -> Result<Draft, Reason>
        ensures { Fed (stand P.Stepping self.old) number lexeme free (stand P.Stepping self.new) result }
    {
        if !self.is_open(number) {
            return Err(Reason::WrongTicket);
        }
        if !is_good(&lexeme) {
            return Err(Reason::BadLexeme);
        }
        let marked = Marked::lexeme(self.before, lexeme);
        let draft = self.advance(&marked, free)?;
        self.settle(draft);
        self.before = Before::after(lexeme.kind);
        Ok(draft)
    }

    // The rules to the end: all of it is accepted and the sheet closed, or nothing is altered.
    pub(super) fn finish_sheet(
        &mut self,
        number: u64,
        end: Place,
        free: usize,
    ) -> Result<Draft, Reason>
        ensures { Finished (stand P.Stepping self.old) number end free (stand P.Stepping self.new) result }
    {
        if !self.is_open(number) {
            return Err(Reason::WrongTicket);
        }
        let marked = Marked::end(self.before, end);
        let draft = self.advance(&marked, free)?;
        self.close();
        Ok(draft)
    }
}
