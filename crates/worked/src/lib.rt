// The layout rules and the sheet grammar together, on eight small sheets: what a service answers to each call, and the
// tokens that it writes. The contract is the statement.

#![tactic(auto)]

ghost use Rattle.std.specs.Prelude.{◌≡◌};
ghost use Rattle.worked.specs.Examples.{Examples};

// What the eight sheets come to.
fn shown()
    ensures { Examples }
{}

// How many sheets are worked out.
pub fn worked_examples() -> usize
    ensures count { result ≡ 8 }
    ensures hold { Examples }
{
    shown();
    8
}
