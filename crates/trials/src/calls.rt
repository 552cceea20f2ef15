// Recorded calls, run by run: each line `new FIRST` begins one.
use crate::journal::journal_text;
use crate::record::call;
use anyhow::anyhow;
use layout::{Call, replay_both};
use std::alloc::Global;
use std::io::Write;
use table::TableParser;

// Makes the calls of a run over two parsers, and writes what they answered. They are compared by what is written.
fn write_run<W: Write>(
    heap: Global,
    first: u64,
    calls: &[Call],
    out: &mut W,
) -> anyhow::Result<()> {
    let both = replay_both(heap, TableParser::new(), TableParser::new(), first, calls)?;
    let one = journal_text(heap, &both.one)?;
    let other = journal_text(heap, &both.other)?;
    writeln!(out, "new {first}")?;
    out.write_all(one.as_bytes())?;
    if one.as_str() != other.as_str() {
        writeln!(out, "differs")?;
    }
    Ok(())
}

// Writes the run that was begun, if any was; before the first there are no calls.
fn write_begun<W: Write>(
    heap: Global,
    begun: Option<u64>,
    calls: &[Call],
    out: &mut W,
) -> anyhow::Result<()> {
    match begun {
        Some(first) => write_run(heap, first, calls, out),
        None if calls.is_empty() => Ok(()),
        None => Err(anyhow!("a call before `new`")),
    }
}

// Writes what came of each run.
pub fn write_calls<W: Write>(heap: Global, text: &str, out: &mut W) -> anyhow::Result<()> {
    let mut begun = None;
    let mut calls = Vec::new(heap);
    for line in text.lines() {
        match line.strip_prefix("new ") {
            Some(first) => {
                write_begun(heap, begun, &calls, out)?;
                calls.clear();
                begun = Some(first.parse::<u64>()?);
            }
            None => calls.push(call(heap, line)?)?,
        }
    }
    write_begun(heap, begun, &calls, out)
}
