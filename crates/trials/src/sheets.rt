// Recorded sheets: each is a line `sheet LENGTH`, so many bytes, and a line end.
ghost use Rattle.std.specs.Prelude.{◌<◌, length, IfSome, IfOk};

use anyhow::anyhow;
use layout::Resolver;
use reader::TooLong;
use std::alloc::{AllocError, Global};
use std::io::Write;
use table::TableParser;
use whole::{Failure, listing, resolve};

// Where the first line of some bytes ends.
fn line_end(bytes: &[u8]) -> Option<usize>
    ensures { IfSome result (λ i. i < length bytes.now) }
{
    bytes.iter().position(|byte| *byte == b'\n')
}

// How many bytes the sheet has that a line announces.
fn announced(line: &[u8]) -> anyhow::Result<usize> {
    let Some(number) = std::str::from_utf8(line)?.strip_prefix("sheet ") else {
        return Err(anyhow!("no line `sheet LENGTH`"));
    };
    Ok(number.parse::<usize>()?)
}

// A sheet of so many bytes and a line end, and what follows them.
fn cut(bytes: &[u8], size: usize) -> anyhow::Result<(&[u8], &[u8])>
    ensures { IfOk result (λ p. length p.1.now < length bytes.now) }
{
    let Some((sheet, rest)) = bytes.split_at_checked(size) else {
        return Err(anyhow!("a sheet is cut off"));
    };
    match rest {
        [b'\n', after @ ..] => Ok((sheet, after)),
        [] => Err(anyhow!("a sheet is cut off")),
        _ => Err(anyhow!("no line end behind a sheet")),
    }
}

// The first sheet of some bytes, and what follows it.
fn first_sheet(bytes: &[u8]) -> anyhow::Result<(&[u8], &[u8])>
    ensures { IfOk result (λ p. length p.1.now < length bytes.now) }
{
    let Some(end) = line_end(bytes) else {
        return Err(anyhow!("no line end"));
    };
    let size = announced(&bytes[..end])?;
    cut(&bytes[end + 1..], size)
}

// Writes what comes of a sheet. The allocator is a parameter, here and elsewhere, as the library passes it.
fn write_sheet<W: Write>(
    heap: Global,
    text: &[u8],
    resolver: &mut Resolver<TableParser>,
    out: &mut W,
) -> anyhow::Result<()> {
    let size = text.len();
    writeln!(out, "sheet {size}")?;
    match resolve(heap, text, resolver) {
        Ok(outcome) => {
            let bytes = listing(heap, text, &outcome)?;
            out.write_all(&bytes)?;
        }
        Err(Failure::TooLong) => writeln!(out, "{TooLong}")?,
        Err(Failure::NoMemory) => return Err(AllocError.into()),
    }
    Ok(())
}

// Writes what comes of each sheet; all go through one resolver.
pub fn write_sheets<W: Write>(heap: Global, bytes: &[u8], out: &mut W) -> anyhow::Result<()> {
    let mut resolver = Resolver::new(TableParser::new(), 0);
    let mut rest = bytes;
    while !rest.is_empty() {
        let (text, after) = first_sheet(rest)?;
        write_sheet(heap, text, &mut resolver, out)?;
        rest = after;
    }
    Ok(())
}
