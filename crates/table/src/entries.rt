// The table: a row for each nonterminal from 16 on, a column for each kind from 1 on. A constant table of numbers, read by
// index, as its format asks.
ghost use Rattle.std.specs.Prelude.{◌≡◌, ◌<◌, [], slice_index, slice_index_or};
ghost use Rattle.table.specs.Cells.{cells, filled};
ghost use Rattle.table.specs.Entry.{Entry};

const TABLE: [[u8; 15]; 10] = [
    [0, 0, 1, 0, 0, 0, 0, 0, 0, 0, 0, 0, 0, 0, 0],
    [2, 0, 0, 2, 2, 0, 0, 0, 0, 0, 0, 0, 0, 0, 0],
    [0, 0, 0, 4, 3, 0, 0, 0, 0, 0, 0, 0, 0, 0, 0],
    [5, 0, 0, 6, 6, 0, 0, 0, 0, 0, 0, 0, 0, 0, 0],
    [0, 0, 0, 0, 0, 0, 0, 8, 0, 0, 0, 0, 0, 7, 0],
    [0, 0, 0, 10, 10, 0, 0, 0, 0, 0, 0, 0, 9, 0, 0],
    [12, 12, 0, 0, 0, 12, 0, 0, 0, 0, 11, 0, 0, 0, 12],
    [0, 0, 0, 14, 14, 0, 14, 0, 14, 13, 0, 0, 14, 0, 0],
    [15, 16, 0, 0, 0, 18, 0, 0, 0, 0, 0, 0, 0, 0, 17],
    [0, 0, 0, 0, 0, 0, 20, 0, 19, 0, 0, 0, 0, 0, 0],
];

// What stands in a row and a column, counted from 0.
fn cell(row: usize, column: usize) -> u8
    requires { (row < 10) × (column < 15) }
    ensures { result ≡ slice_index (slice_index_or cells row []) column }
{
    TABLE[row][column]
}

// The production by which a nonterminal is expanded when this kind comes next, or 0 where there is none, for any two
// numbers. The format of the table asks for the 0: every other entry is 0.
pub fn entry(symbol: u8, kind: u32) -> u8
    ensures { Entry symbol kind result }
{
    if !matches!(symbol, 16..=25) {
        return 0;
    }
    if !matches!(kind, 1..=15) {
        return 0;
    }
    cell(symbol as usize - 16, kind as usize - 1)
}

// How many entries are not 0.
pub fn entries_filled() -> u8
    ensures { result ≡ filled cells }
{
    31
}
