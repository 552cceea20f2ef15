// What a symbol on the stack comes to when a kind comes next: the table's expansions carried through until a kind stands
// first. All of it follows from the table and the productions. It is kept for speed: one look-up stands for as many
// expansions as a symbol brings, and no symbol is laid down that the kind would only take away again.
ghost use Rattle.std.specs.Prelude.{◌≡◌, ◌<◌, ◌≤◌, [], reverse, slice_index, slice_index_or};
ghost use Rattle.grammar.specs.Grammar.{IsKind};
ghost use Rattle.table.specs.Steps.{step_rows, left_of as named};
ghost use Rattle.table.specs.Comes.{Comes};
ghost use Rattle.table.specs.Expands.{ByEntries};

#[derive(Clone, Copy)]
pub(crate) enum Step {
    // The kind is not viable.
    Rejected,
    // The symbol derives the empty list, and what is below it counts.
    Vanishes,
    // The kind is met; these symbols are then left of the symbol, the last of them first, as they lie on a stack.
    Meets(&'static [u8]),
}

// The first nonterminal, which the format makes the start symbol too.
const NONTERMINAL: u8 = 16;

// 0 where the kind is rejected, 1 where the nonterminal vanishes, and from 2 on the symbols that are left, by their
// number. A step is kept as one byte, so that a row for each nonterminal from 16 on, with a column for each kind and a
// first one for none, has sixteen bytes and is found by a shift.
static STEPS: [[u8; 16]; 10] = [
    [0, 0, 0, 8, 0, 0, 0, 0, 0, 0, 0, 0, 0, 0, 0, 0],
    [0, 9, 0, 0, 1, 4, 0, 0, 0, 0, 0, 0, 0, 0, 0, 0],
    [0, 0, 0, 0, 1, 4, 0, 0, 0, 0, 0, 0, 0, 0, 0, 0],
    [0, 5, 0, 0, 1, 1, 0, 0, 0, 0, 0, 0, 0, 0, 0, 0],
    [0, 0, 0, 0, 0, 0, 0, 0, 10, 0, 0, 0, 0, 0, 3, 0],
    [0, 0, 0, 0, 1, 1, 0, 0, 0, 0, 0, 0, 0, 3, 0, 0],
    [0, 7, 7, 0, 0, 0, 15, 0, 0, 0, 0, 13, 0, 0, 0, 11],
    [0, 0, 0, 0, 1, 1, 0, 1, 0, 1, 6, 0, 0, 1, 0, 0],
    [0, 2, 2, 0, 0, 0, 14, 0, 0, 0, 0, 0, 0, 0, 0, 3],
    [0, 0, 0, 0, 0, 0, 0, 1, 0, 12, 0, 0, 0, 0, 0, 0],
];

// The symbols that can be left, by their number, the last of them first.
static LEFT: [&[u8]; 14] = [
    &[],
    &[16],
    &[17],
    &[20],
    &[22],
    &[23],
    &[4, 17],
    &[18, 20],
    &[21, 22],
    &[23, 16],
    &[25, 22],
    &[22, 12, 16],
    &[7, 25, 22],
    &[23, 7, 25, 22],
];

// What stands in a row and a column, counted from 0. It is no generic function together with `cell` of the other table:
// each contract compares its table with the definition, and so a wrong entry is refused here and not in a caller's proof.
fn number(row: usize, column: usize) -> u8
    requires { (row < 10) × (column < 16) }
    ensures { result ≡ slice_index (slice_index_or step_rows row []) column }
{
    STEPS[row][column]
}

// The symbols of a number.
fn left_of(number: u8) -> &'static [u8]
    requires { number < 14 }
    ensures { reverse result.now ≡ named number }
{
    LEFT[number as usize]
}

// What a symbol of the grammar comes to when this kind comes next.
pub(crate) fn comes_to(symbol: u8, kind: u32) -> Step
    requires { (symbol ≤ 25) × IsKind kind }
    ensures entries { ByEntries symbol kind result }
    ensures means { Comes symbol kind result }
{
    if symbol < NONTERMINAL {
        return if u32::from(symbol) == kind {
            Step::Meets(&[])
        } else {
            Step::Rejected
        };
    }
    match number(symbol as usize - 16, kind as usize) {
        0 => Step::Rejected,
        1 => Step::Vanishes,
        left => Step::Meets(left_of(left - 2)),
    }
}
