// Why a text is not read, and why a reading stops before its end.
ghost use Rattle.std.specs.Prelude.{◌≡◌, Some};
ghost use Rattle.reader.specs.declared.stop.Stop.TheVariants.{Fault as fault_stop, Full as full_stop};
ghost use Rattle.reader.specs.Refusals.{too_long_number, too_long_text};

use queue::Full;
use sheet::Fault;
use std::fmt;

// The refusal of a text of more than 65,535 bytes.
#[derive(Clone, Copy, Debug, PartialEq, Eq)]
pub struct TooLong;

impl TooLong {
    // The number by which the outside knows the refusal, one constant as the queue's refusal has.
    pub fn number(&self) -> u32
        ensures { result ≡ too_long_number self.now }
    {
        4
    }
}

// As a fault is written, with no line, no column, no layer and no context.
impl fmt::Display for TooLong {
    ghost output = { λ x. Some (too_long_text x) };

    fn fmt<W: fmt::Write>(&self, f: &mut fmt::Formatter<W>) -> fmt::Result {
        let number = self.number();
        write!(f, "0 0 0 {number} -")
    }
}

// Why a reading stops before the end of the text: at a fault, or before a lexeme that finds no free place.
#[derive(Clone, Copy, Debug, PartialEq, Eq)]
pub enum Stop {
    Fault(Fault),
    Full(Full),
}

impl From<Fault> for Stop {
    ghost from_gives = { λ x r. r ≡ fault_stop x };

    fn from(fault: Fault) -> Stop {
        Stop::Fault(fault)
    }
}

impl From<Full> for Stop {
    ghost from_gives = { λ x r. r ≡ full_stop x };

    fn from(full: Full) -> Stop {
        Stop::Full(full)
    }
}
