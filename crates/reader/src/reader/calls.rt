// Checking, opening and reading a text.
ghost use Rattle.std.specs.Prelude.{◌≡◌, ◌<◌, false, leb, [], ◌++◌, length, is_ok, if◌then◌else◌, nat_le};
ghost use Rattle.queue.specs.Waiting.{room, SamePlaces, waiting};
ghost use Rattle.reader.specs.Laws.{Laws};
ghost use Rattle.reader.specs.Places.{column_at, line_at};
ghost use Rattle.reader.specs.Reading.{answer, offset_of, reads, text_of};

use super::Reader;
use crate::cursor::Cursor;
use crate::stop::{Stop, TooLong};
use queue::Queue;
use sheet::{Lexeme, Place};

// A text has at most so many bytes.
const LONGEST_TEXT: usize = 65_535;

// Whether a text is short enough to be read.
pub fn check(text: &[u8]) -> Result<(), TooLong>
    ensures { is_ok result ≡ nat_le (length text.now) 65535 }
{
    if text.len() > LONGEST_TEXT {
        return Err(TooLong);
    }
    Ok(())
}

impl<'a> Reader<'a> {
    // A reader at the start of a text; one that is too long is read as empty.
    pub fn open(text: &'a [u8]) -> Reader<'a>
        ensures text { text_of result ≡ (if leb (length text.now) 65535 then text.now else []) }
        ensures start { offset_of result ≡ 0 }
        ensures laws { Laws (text_of result) }
    {
        let here = Cursor {
            offset: 0,
            line: 1,
            column: 1,
            first: true,
        };
        match check(text) {
            Ok(()) => Reader { text, here },
            Err(TooLong) => Reader { text: &[], here },
        }
    }

    // Where reading goes on; after the last byte, the place of the end.
    pub fn place(&self) -> Place
        ensures { result ≡ record { line = line_at (text_of self.now) (offset_of self.now); column = column_at (text_of self.now) (offset_of self.now) } }
    {
        Place {
            line: self.here.line,
            column: self.here.column,
        }
    }

    // Puts the next lexemes into a queue, up to the end of the text, a fault or a full queue, and answers how many.
    pub fn read(&mut self, queue: &mut Queue<'_, Lexeme>) -> Result<u32, Stop>
        ensures answer { result ≡ answer (reads self.old queue.old) }
        ensures list { waiting queue.new ≡ waiting queue.old ++ (reads self.old queue.old).put }
        ensures next { offset_of self.new ≡ (reads self.old queue.old).next }
        ensures text { text_of self.new ≡ text_of self.old }
        ensures forward { is_ok result ≡ false → 0 < room queue.old → offset_of self.old < offset_of self.new }
        ensures places { SamePlaces queue.old queue.new }
    {
        // Counted here: the loop has four ways out, and one answers the count.
        let mut count = 0;
        loop {
            self.pass_gaps();
            let Some(found) = self.find() else {
                return Ok(count);
            };
            // A lexeme that finds no free place is left to the next reading, and a fault is not.
            if let Ok(lexeme) = found.what {
                queue.put(lexeme)?;
            }
            self.here = found.after;
            found.what?;
            count += 1;
        }
    }
}
