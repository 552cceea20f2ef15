// What a call would leave, kept apart until it is known that all of it fits.
ghost use Rattle.std.specs.Prelude.{◌≡◌, ℕ, ◌+◌, ◌^◌, ◌<◌, ◌≤◌, true, false, List, [], ◌∷◌, ◌++◌, length, is_some, Decides};
ghost use Rattle.parser.specs.Meaning.{meaning};
ghost use Rattle.layout.specs.Drafts.{Inserted, Next, NextAll, Row, Step, contexts_of, drafted_tokens, empty, is_separator, reason_of, tokens_of};
ghost use Rattle.layout.specs.First.{innermost_of};
ghost use Rattle.layout.specs.Limits.{Room};
ghost use Rattle.layout.specs.Rules.{insert_kind, leaves, opening, outer};

use crate::rule::{Coming, Insert, Rule};
use parser::{Refused, Stepping};
use sheet::{Kind, Reason};

// At most so many blocks are open.
pub const MOST_BLOCKS: usize = 64;

#[derive(Clone, Copy, Default)]
pub struct Draft {
    // How many contexts of the sheet stay open.
    pub depth: usize,
    // The context that the call itself opened, if any; it is the innermost then.
    pub opened: Option<u32>,
    // The tokens that the call inserts: a `{` or none, some `}`, a `;` or none, and some `}` again. Four counts in the order
    // of writing, so that a `}` behind no `;` is one of the first and no flag goes with the last.
    pub brace: bool,
    pub closes: u32,
    pub separator: bool,
    pub closes_after: u32,
}

impl Draft {
    // Nothing inserted yet, and as many blocks open as the sheet has.
    pub fn new(depth: usize) -> Draft
        ensures { result ≡ empty depth }
    {
        Draft {
            depth,
            ..Draft::default()
        }
    }

    // The innermost context.
    pub fn innermost(self, contexts: &[u32]) -> Option<u32>
        requires { self.depth ≤ length contexts.now }
        ensures { result ≡ innermost_of (contexts_of contexts.now self) }
    {
        self.opened.or(contexts[..self.depth].last().copied())
    }

    // How many blocks are open.
    pub fn blocks(self) -> usize
        requires { self.depth ≤ 64 }
        ensures { (cs : List ℕ) → result ≡ length (contexts_of cs self) }
    {
        self.depth + usize::from(self.opened.is_some())
    }

    // How many tokens are written of what comes: those inserted before it, and the lexeme itself.
    pub fn count(self, coming: &Coming) -> usize
        ensures { result ≡ length (drafted_tokens coming.now self) }
    {
        usize::from(self.brace)
            + self.closes as usize
            + usize::from(self.separator)
            + self.closes_after as usize
            + usize::from(!coming.is_end())
    }

    // Without the innermost block.
    fn closed(self) -> Draft
        ensures value { (cs : List ℕ) → contexts_of cs result ≡ outer (contexts_of cs self) }
        ensures depth { result.depth ≤ self.depth }
        ensures tokens { tokens_of result ≡ tokens_of self }
        ensures opened { is_some result.opened ≡ false }
        ensures row { (result.separator ≡ self.separator) × (result.closes_after ≡ self.closes_after) }
    {
        match self.opened {
            Some(_) => Draft {
                opened: None,
                ..self
            },
            None => Draft {
                depth: self.depth.saturating_sub(1),
                ..self
            },
        }
    }

    // After a rule, at a column.
    pub fn after(self, rule: Rule, column: u32) -> Draft
        requires single { opening rule ≡ true → is_some self.opened ≡ false }
        ensures contexts { (cs : List ℕ) → contexts_of cs result ≡ leaves rule column (contexts_of cs self) }
        ensures depth { result.depth ≤ self.depth }
        ensures tokens { tokens_of result ≡ tokens_of self }
        ensures opened { opening rule ≡ false → is_some result.opened ≡ true → is_some self.opened ≡ true }
        ensures row { (result.separator ≡ self.separator) × (result.closes_after ≡ self.closes_after) }
    {
        match rule {
            Rule::CloseShallower | Rule::CloseOnError | Rule::CloseAtEnd | Rule::CloseTyped =>
                self.closed(),
            Rule::OpenBlock => Draft {
                opened: Some(column),
                ..self
            },
            Rule::OpenTyped => Draft {
                opened: Some(0),
                ..self
            },
            _ => self,
        }
    }

    // With a token inserted behind the others: a `{` only before all others, a `;` only once.
    pub fn with(self, token: Insert) -> Draft
        requires order { Next self token }
        requires few { length (tokens_of self) < 2 ^ 31 }
        ensures tokens { tokens_of result ≡ tokens_of self ++ insert_kind token ∷ [] }
        ensures contexts { (result.depth ≡ self.depth) × (result.opened ≡ self.opened) }
        ensures row { is_separator token ≡ false → self.separator ≡ false → Row self result }
    {
        match token {
            Insert::Open => Draft {
                brace: true,
                ..self
            },
            Insert::Separator => Draft {
                separator: true,
                ..self
            },
            Insert::Close => self.with_close(),
        }
    }

    // With a `}` inserted behind the others.
    fn with_close(self) -> Draft
        requires few { length (tokens_of self) < 2 ^ 31 }
        ensures tokens { tokens_of result ≡ tokens_of self ++ 4 ∷ [] }
        ensures contexts { (result.depth ≡ self.depth) × (result.opened ≡ self.opened) }
        ensures row { self.separator ≡ false → Row self result }
    {
        if self.separator {
            Draft {
                closes_after: self.closes_after + 1,
                ..self
            }
        } else {
            Draft {
                closes: self.closes + 1,
                ..self
            }
        }
    }
}

// Whether there is room for a token: a `{` opens one block more. The kind is any number, so it is compared as one.
fn has_room(kind: u32, blocks: usize) -> bool
    ensures { Decides result (Room kind blocks) }
{
    kind != Kind::OpenBrace.number() || blocks < MOST_BLOCKS
}

// A parser's refusal as a fault's reason. Neither type is of this crate, so no `From` can stand here.
fn reason_of(refused: Refused) -> Reason
    ensures { result ≡ reason_of refused }
{
    match refused {
        Refused::NotViable => Reason::NotViable,
        Refused::ReachSpent => Reason::ReachSpent,
    }
}

// Has the parser take a token's kind, unless it is a `{` and too many blocks are open.
pub fn take_token<P: Stepping>(parser: &mut P, kind: u32, blocks: usize) -> Result<(), Reason>
    ensures { Step kind blocks (meaning P.Stepping parser.old) (meaning P.Stepping parser.new) result }
{
    if !has_room(kind, blocks) {
        return Err(Reason::TooDeep);
    }
    parser.take(kind).map_err(reason_of)
}

// Has the parser take inserted tokens one after another, and drafts them.
pub fn insert_all<P: Stepping>(
    parser: &mut P,
    tokens: &[Insert],
    blocks: usize,
    draft: Draft,
) -> Result<Draft, Reason>
    requires order { NextAll draft tokens.now }
    requires few { length (tokens_of draft) + length tokens.now < 2 ^ 31 }
    ensures { Inserted tokens.now blocks draft (meaning P.Stepping parser.old) (meaning P.Stepping parser.new) result }
{
    let mut drafted = draft;
    for token in tokens {
        take_token(parser, token.kind().number(), blocks)?;
        drafted = drafted.with(*token);
    }
    Ok(drafted)
}
