// What is written of a run: a line for each answer.
use layout::{Answer, Journal};
use sheet::Token;
use std::alloc::Global;
use std::fmt;
use std::fmt::Write;

// How many tokens a call wrote, and which: so many of all from a place on.
fn add_count(out: &mut String, tokens: &[Token], from: usize, count: usize) -> fmt::Result {
    write!(out, "wrote {count}")?;
    for token in tokens.iter().skip(from).take(count) {
        write!(out, " | {token}")?;
    }
    writeln!(out)?;
    Ok(())
}

// The answers of a run, a line each. An answer that counts has its tokens in the journal and not in itself, so that it
// has no `Display`, and where they begin is counted here.
pub fn journal_text(heap: Global, journal: &Journal) -> Result<String, fmt::Error> {
    let mut out = String::new(heap);
    let mut from = 0usize;
    for answer in journal.answers.iter() {
        match *answer {
            Answer::Ticket(number) => writeln!(out, "ticket {number}")?,
            Answer::Count(count) => {
                add_count(&mut out, journal.tokens.as_slice(), from, count)?;
                from = from.saturating_add(count);
            }
            Answer::Closed => writeln!(out, "closed")?,
            Answer::Refused(fault) => writeln!(out, "fault {fault}")?,
        }
    }
    Ok(out)
}
