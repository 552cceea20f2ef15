// Prints the tokens of the sheet on standard input, or what was refused of it.

#![tactic(auto)]

use layout::Resolver;
use reader::TooLong;
use std::io;
use std::io::{Read, Write};
use table::TableParser;
use whole::{Failure, listing, resolve};

// As `trials` writes a sheet, but for the stream and the type of its errors.
fn main(rt: HostRuntime) -> io::Result<()> {
    let mut text = Vec::new(rt.alloc());
    rt.stdin().read_to_end(&mut text)?;
    let mut resolver = Resolver::new(TableParser::new(), 0);
    match resolve(rt.alloc(), &text, &mut resolver) {
        Ok(outcome) => {
            let bytes = listing(rt.alloc(), &text, &outcome)?;
            rt.stdout().write_all(&bytes)
        }
        Err(Failure::TooLong) => println!(rt; "{TooLong}"),
        Err(Failure::NoMemory) => Err(io::ErrorKind::OutOfMemory.into()),
    }
}
