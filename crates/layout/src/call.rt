// The calls of a service and their answers as values, so that a run of calls can be kept, made again and compared.
use sheet::{Fault, Lexeme, Place};

// A call: with the number of the ticket that is given, and with how many places are free in the queue that is lent.
#[derive(Clone, Copy, Debug, PartialEq, Eq)]
pub enum Call {
    Begin,
    Feed {
        ticket: u64,
        lexeme: Lexeme,
        free: u8,
    },
    Finish {
        ticket: u64,
        end: Place,
        free: u8,
    },
    GiveUp {
        ticket: u64,
    },
}

// What a call answers: a ticket's number, how many tokens it wrote, that it closed the sheet, or why it was refused. The
// law of every run names the four as cases of one type, so they are no `Result`.
#[derive(Clone, Copy, Debug, PartialEq, Eq)]
pub enum Answer {
    Ticket(u64),
    Count(usize),
    Closed,
    Refused(Fault),
}
