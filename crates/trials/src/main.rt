// Runs recorded sheets and calls over the table parser, and writes what came of them. It reads the files `sheets` and
// `calls` of the folder that it is run in.

#![tactic(auto)]

mod calls;
mod journal;
mod record;
mod sheets;

use crate::calls::write_calls;
use crate::sheets::write_sheets;
use std::fs;
use std::io::{BufWriter, Write};

fn run(rt: &HostRuntime) -> anyhow::Result<()> {
    let sheets = fs::read(rt, "sheets")?;
    let calls = fs::read_to_string(rt, "calls")?;
    let mut out = BufWriter::new(rt.alloc(), rt.stdout())?;
    write_sheets(rt.alloc(), &sheets, &mut out)?;
    write_calls(rt.alloc(), calls.as_str(), &mut out)?;
    out.flush()?;
    Ok(())
}

fn main(rt: HostRuntime) -> anyhow::Result<()> {
    run(&rt)
}
