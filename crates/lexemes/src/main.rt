// Lists the lexemes of the sheet on standard input: a line for each, the faults in their places, and last how many
// there were of both.

#![tactic(auto)]

ghost use Rattle.std.specs.Prelude.{◌≡◌, [], OnOk};
ghost use Rattle.queue.specs.Waiting.{capacity, waiting};

use queue::Queue;
use reader::{Reader, Stop, check};
use sheet::Lexeme;
use std::io;
use std::io::{BufWriter, Read, Write};

// The reader works through so many places, fewer than most sheets have lexemes.
const PLACES: usize = 16;

// Writes and empties what waits in the queue, and answers how many lexemes that were. Where a lexeme's bytes lie is one
// line, as in `whole` for a token.
fn write_waiting<W: Write>(
    text: &[u8],
    queue: &mut Queue<'_, Lexeme>,
    out: &mut W,
) -> io::Result<u64>
    ensures emptied { OnOk result (waiting queue.new ≡ []) }
    ensures size { capacity queue.new ≡ capacity queue.old }
{
    let mut written = 0u64;
    while let Some(lexeme) = queue.take() {
        write!(out, "{lexeme} ")?;
        let from = lexeme.offset as usize;
        let bytes = text.get(from..from + lexeme.length as usize).unwrap_or(&[]);
        out.write_all(bytes)?;
        out.write_all(b"\n")?;
        written = written.saturating_add(1);
    }
    Ok(written)
}

// Writes the lexemes and faults of a text, through a queue that may be smaller than the text. A loop of its own beside that
// of `whole`, which resolves; both are counted as they are written.
fn write_items<W: Write>(text: &[u8], out: &mut W) -> io::Result<()> {
    let mut places = [Lexeme::default(); PLACES];
    let mut queue = Queue::new(&mut places);
    let mut reader = Reader::open(text);
    let mut lexemes = 0u64;
    let mut faults = 0u64;
    loop {
        let answer = reader.read(&mut queue);
        lexemes = lexemes.saturating_add(write_waiting(text, &mut queue, out)?);
        match answer {
            Ok(_) => return writeln!(out, "{lexemes} lexemes, {faults} faults"),
            Err(Stop::Fault(fault)) => {
                faults = faults.saturating_add(1);
                writeln!(out, "fault {fault}")?;
            }
            Err(Stop::Full(_)) => {}
        }
    }
}

fn main(rt: HostRuntime) -> io::Result<()> {
    let mut text = Vec::new(rt.alloc());
    rt.stdin().read_to_end(&mut text)?;
    let mut out = BufWriter::new(rt.alloc(), rt.stdout())?;
    match check(&text) {
        Ok(()) => write_items(&text, &mut out)?,
        Err(refusal) => writeln!(out, "fault {refusal}")?,
    }
    out.flush()
}
