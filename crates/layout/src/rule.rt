// The rules by name, the marks that they work on, and which rule applies.
ghost use Rattle.std.specs.Prelude.{◌≡◌, ℕ, List, [], Decides, None as none};
ghost use Rattle.layout.specs.Layout.{SingleValued};
ghost use Rattle.layout.specs.Marks.{after, column, end_mark, is_end, mark_of};
ghost use Rattle.layout.specs.First.{block_rule, close_rule, end_rule, innermost_of, line_rule};
ghost use Rattle.sheet.specs.Kinds.{kind_number};
ghost use Rattle.sheet.specs.declared.lexeme.Lexeme.{Lexeme as Typed};
ghost use Rattle.layout.specs.declared.rule.Coming.TheVariants.{Lexeme as lexeme};
ghost use Rattle.layout.specs.declared.rule.Rule.{Rule};
ghost use Rattle.layout.specs.Rules.{Applies, MustClose, insert_kind, inserting, onward};

use parser::Probing;
use sheet::{Kind, Lexeme, Place};

// What stands before a lexeme, or before the end.
#[derive(Clone, Copy, Debug, PartialEq, Eq)]
pub enum Before {
    Nothing,
    BlockKeyword,
    Other,
}

// A mark before a lexeme or before the end: that it begins a line, or that a block is due.
#[derive(Clone, Copy, Debug, PartialEq, Eq)]
pub enum Mark {
    Line,
    Block,
}

// A lexeme, or the end of the sheet with its place. No `Result`: the end is no refusal of a lexeme.
#[derive(Clone, Copy, Debug, PartialEq, Eq)]
pub enum Coming {
    Lexeme(Lexeme),
    End(Place),
}

// The layout rules.
#[derive(Clone, Copy, Debug, PartialEq, Eq)]
pub enum Rule {
    // At the mark of a line: as deep as the block, less deep, or neither.
    Separate,
    CloseShallower,
    DropMark,
    // At the mark of a block: deeper than the block around it, or not.
    OpenBlock,
    EmptyBlock,
    // At a typed brace.
    CloseTyped,
    StrayClose,
    OpenTyped,
    // At any other lexeme.
    CloseOnError,
    WriteLexeme,
    // At the end.
    CloseAtEnd,
    End,
    BlockLeftOpen,
}

// A token that a rule inserts.
#[derive(Clone, Copy, Debug, PartialEq, Eq)]
pub enum Insert {
    Open,
    Close,
    Separator,
}

// How it goes on after a rule: at another mark before the same or at none, with the lexeme written, with the end reached, or not
// at all.
#[derive(Clone, Copy, Debug, PartialEq, Eq)]
pub enum Onward {
    Mark(Option<Mark>),
    Lexeme,
    End,
    Undefined,
}

impl Before {
    // What stands before the lexeme that follows one of this kind.
    pub fn after(kind: u32) -> Before
        ensures { result ≡ after kind }
    {
        match Kind::try_from(kind) {
            Ok(kind) if kind.opens_block() => Before::BlockKeyword,
            _ => Before::Other,
        }
    }

    // The mark before a lexeme, if any. Kinds are compared as numbers: made a `Kind` first, each test would have a case more,
    // for the numbers that are none.
    pub fn mark_of(self, lexeme: &Lexeme) -> Option<Mark>
        ensures value { result ≡ mark_of self lexeme.now }
    {
        let open = lexeme.kind == Kind::OpenBrace.number();
        match self {
            Before::BlockKeyword if open => None,
            Before::Nothing | Before::BlockKeyword if !open => Some(Mark::Block),
            _ if lexeme.first => Some(Mark::Line),
            _ => None,
        }
    }

    // The mark before the end, if any.
    pub fn end_mark(self) -> Option<Mark>
        ensures { result ≡ end_mark self }
    {
        match self {
            Before::Nothing | Before::BlockKeyword => Some(Mark::Block),
            Before::Other => None,
        }
    }
}

impl Rule {
    // The tokens that the rule inserts. One `match` on the rule for each definition that names it: this, how it goes on and
    // what it leaves of the contexts.
    pub fn inserting(self) -> &'static [Insert]
        ensures { result.now ≡ inserting self }
    {
        match self {
            Rule::Separate => &[Insert::Separator],
            Rule::OpenBlock => &[Insert::Open],
            Rule::EmptyBlock => &[Insert::Open, Insert::Close],
            Rule::CloseShallower | Rule::CloseOnError | Rule::CloseAtEnd => &[Insert::Close],
            _ => &[],
        }
    }

    // How it goes on after the rule.
    pub fn onward(self) -> Onward
        ensures { result ≡ onward self }
    {
        match self {
            Rule::CloseShallower | Rule::EmptyBlock => Onward::Mark(Some(Mark::Line)),
            Rule::Separate
            | Rule::DropMark
            | Rule::OpenBlock
            | Rule::CloseOnError
            | Rule::CloseAtEnd => Onward::Mark(None),
            Rule::CloseTyped | Rule::OpenTyped | Rule::WriteLexeme => Onward::Lexeme,
            Rule::End => Onward::End,
            Rule::StrayClose | Rule::BlockLeftOpen => Onward::Undefined,
        }
    }
}

impl Insert {
    pub fn kind(self) -> Kind
        ensures { kind_number result ≡ insert_kind self }
    {
        match self {
            Insert::Open => Kind::OpenBrace,
            Insert::Close => Kind::CloseBrace,
            Insert::Separator => Kind::Semicolon,
        }
    }
}

impl Coming {
    // The column by which the rules go: 0 at the end, as function L of the Haskell Report has it, and no `Option`.
    pub fn column(&self) -> u32
        ensures { result ≡ column self.now }
    {
        match self {
            Coming::Lexeme(lexeme) => lexeme.column,
            Coming::End(_) => 0,
        }
    }

    // Whether the end comes.
    pub fn is_end(&self) -> bool
        ensures { result ≡ is_end self.now }
    {
        matches!(self, Coming::End(_))
    }
}

// The rule at the mark of a line.
fn rule_at_line(column: u32, innermost: Option<u32>) -> Rule
    ensures { result ≡ line_rule column innermost }
{
    match innermost {
        Some(context) if context == column => Rule::Separate,
        Some(context) if context > column => Rule::CloseShallower,
        _ => Rule::DropMark,
    }
}

// The rule at the mark of a block.
fn rule_at_block(column: u32, innermost: Option<u32>) -> Rule
    ensures { result ≡ block_rule column innermost }
{
    if column > innermost.unwrap_or(0) {
        Rule::OpenBlock
    } else {
        Rule::EmptyBlock
    }
}

// The rule at a typed `}`, which closes an explicit block only.
fn rule_at_close(innermost: Option<u32>) -> Rule
    ensures { result ≡ close_rule innermost }
{
    match innermost {
        Some(0) => Rule::CloseTyped,
        _ => Rule::StrayClose,
    }
}

// The rule at the end.
fn rule_at_end(innermost: Option<u32>) -> Rule
    ensures { result ≡ end_rule innermost }
{
    match innermost {
        None => Rule::End,
        Some(0) => Rule::BlockLeftOpen,
        Some(_) => Rule::CloseAtEnd,
    }
}

// Whether the innermost block is implicit and has to close before a kind. The innermost context comes beside the parser,
// in which it does not lie.
fn must_close<P: Probing>(parser: &P, kind: u32, innermost: Option<u32>) -> bool
    ensures { (ks : List ℕ) → innermost_of ks ≡ innermost → Decides result (MustClose (P.remainder parser.now) [] kind ks) }
{
    innermost.is_some_and(|context| context > 0)
        && !parser.viable(kind)
        && parser.viable(Kind::CloseBrace.number())
}

// The rule at a lexeme without a mark. Its kind is compared as a number, for the reason told at `mark_of`.
fn rule_at_lexeme<P: Probing>(parser: &P, kind: u32, innermost: Option<u32>) -> Rule
    ensures { (l : Typed) (ks : List ℕ) → kind ≡ l.kind → innermost_of ks ≡ innermost → Applies (P.remainder parser.now) [] none (lexeme l) ks result }
{
    if kind == Kind::CloseBrace.number() {
        rule_at_close(innermost)
    } else if kind == Kind::OpenBrace.number() {
        Rule::OpenTyped
    } else if must_close(parser, kind, innermost) {
        Rule::CloseOnError
    } else {
        Rule::WriteLexeme
    }
}

// The rule that applies at a mark before what comes, or at none, where the parser stands. Three cases of data, each with a
// function of its own.
pub fn rule_at<P: Probing>(
    parser: &P,
    mark: Option<Mark>,
    coming: &Coming,
    innermost: Option<u32>,
) -> Rule
    ensures applies { (ks : List ℕ) → innermost_of ks ≡ innermost → Applies (P.remainder parser.now) [] mark coming.now ks result }
    ensures only { (ks : List ℕ) (s : Rule) → innermost_of ks ≡ innermost → Applies (P.remainder parser.now) [] mark coming.now ks s → s ≡ result }
    ensures single { SingleValued (P.remainder parser.now) }
{
    match mark {
        Some(Mark::Line) => rule_at_line(coming.column(), innermost),
        Some(Mark::Block) => rule_at_block(coming.column(), innermost),
        None => match coming {
            Coming::Lexeme(lexeme) => rule_at_lexeme(parser, lexeme.kind, innermost),
            Coming::End(_) => rule_at_end(innermost),
        },
    }
}
