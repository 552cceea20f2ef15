// The right to an open sheet.
use sheet::Fault;

// A sheet's number. It can neither be copied nor be let go: finish and give up take it, once.
pub struct Ticket {
    pub(crate) number: u64,
}

// A refusal of a call that takes a ticket: it hands the ticket back.
pub struct Refusal {
    pub ticket: Ticket,
    pub fault: Fault,
}
