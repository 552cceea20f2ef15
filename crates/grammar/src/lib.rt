// Context-free grammars, defined once for every parser: productions, what they derive, what can begin and what
// can follow (specs/Grammar.antt), and the grammar of sheets with its productions at hand. Symbols and productions are
// numbers, and each function answers for any number: an enum in their place would ask more of callers.

#![tactic(auto)]

ghost use Rattle.std.specs.Prelude.{◌≡◌, ℕ, [], ◌∷◌, Decides};
ghost use Rattle.grammar.specs.Grammar.{nth, among, IsNonterminal, Nullable, CanBegin, CanFollow};
ghost use Rattle.grammar.specs.Sheet.{sheet};
ghost use Rattle.grammar.specs.Sets.{nullables, beginners, followers};

// The right side of a production of the sheet grammar, by its number; empty for a number that none has. Productions and
// symbols are numbers here and in the table, since its format numbers them.
pub fn right_side(production: u8) -> &'static [u8]
    ensures { result.now ≡ (nth sheet production).right }
{
    match production {
        1 => &[3, 17, 4],
        2 => &[19, 18],
        3 => &[5, 17],
        5 => &[1, 20],
        7 => &[14, 16],
        8 => &[8, 22, 21],
        9 => &[13, 16],
        11 => &[11, 16, 12, 22],
        12 => &[24, 23],
        13 => &[10, 22],
        15 => &[1],
        16 => &[2],
        17 => &[15, 16],
        18 => &[6, 22, 25, 7],
        19 => &[9, 22, 25],
        _ => &[],
    }
}

// The sheet grammar's sets, as they are kept. They stand in functions of their own, so that one lemma says of each set what
// it means: in the public functions below, each arm of the match would need an answer that says it again.

// The nullable nonterminals.
fn kept_nullable(symbol: u8) -> bool
    ensures { result ≡ among symbol nullables }
{
    matches!(symbol, 17 | 18 | 19 | 21 | 23 | 25)
}

// The kinds that can begin what a nonterminal derives.
fn kept_beginners(symbol: u8) -> &'static [u8]
    ensures { result.now ≡ beginners symbol }
{
    match symbol {
        16 => &[3],
        17 => &[1, 5],
        18 => &[5],
        19 => &[1],
        20 => &[8, 14],
        21 => &[13],
        22 => &[1, 2, 6, 11, 15],
        23 => &[10],
        24 => &[1, 2, 6, 15],
        25 => &[9],
        _ => &[],
    }
}

// The kinds that can follow a nonterminal. A `match` of its own: its rows have nothing in common with those above.
fn kept_followers(symbol: u8) -> &'static [u8]
    ensures { result.now ≡ followers symbol }
{
    match symbol {
        16 => &[4, 5, 7, 9, 10, 12, 13],
        17 | 18 => &[4],
        19 | 20 | 21 => &[4, 5],
        22 | 23 => &[4, 5, 7, 9, 13],
        24 => &[4, 5, 7, 9, 10, 13],
        25 => &[7],
        _ => &[],
    }
}

// Whether a symbol derives the empty list in the sheet grammar.
pub fn is_nullable(symbol: u8) -> bool
    ensures { Decides result (Nullable sheet (symbol ∷ [])) }
{
    kept_nullable(symbol)
}

// The kinds that can begin a list derived from a nonterminal of the sheet grammar.
pub fn first_kinds(symbol: u8) -> &'static [u8]
    ensures { (kind : ℕ) → Decides (among kind result.now) (IsNonterminal symbol × CanBegin sheet (symbol ∷ []) kind) }
{
    kept_beginners(symbol)
}

// The kinds that can follow a nonterminal of the sheet grammar.
pub fn follow_kinds(symbol: u8) -> &'static [u8]
    ensures { (kind : ℕ) → Decides (among kind result.now) (CanFollow sheet symbol kind) }
{
    kept_followers(symbol)
}
