// What stands where a reader is: first the gaps between lexemes, then a lexeme or a fault.
ghost use Rattle.std.specs.Prelude.{◌≡◌, ◌≤◌, true, Some, MatchOption};
ghost use Rattle.reader.specs.Classes.{class, line_end};
ghost use Rattle.reader.specs.Cursors.{NoGap};
ghost use Rattle.reader.specs.Found.{Ends, Finds};
ghost use Rattle.reader.specs.Items.{items};
ghost use Rattle.reader.specs.Places.{byte, line_end_length};
ghost use Rattle.reader.specs.Reading.{offset_of, text_of};

use super::Reader;
use crate::class::{Class, class_of};
use crate::item::{Found, fault, judge};
use crate::run::front_run;
use sheet::Reason;

// How many bytes a line end has that stands at the front. 13 10 is one line end.
fn line_end_length(bytes: &[u8]) -> usize
    ensures { line_end (class (byte bytes.now 0)) ≡ true → Some result ≡ line_end_length bytes.now }
{
    match bytes {
        [b'\r', b'\n', _rest @ ..] => 2,
        _ => 1,
    }
}

impl<'a> Reader<'a> {
    // Passes all the blanks and line ends that stand here.
    pub(super) fn pass_gaps(&mut self)
        ensures text { text_of self.new ≡ text_of self.old }
        ensures same { items (text_of self.old) (offset_of self.old) ≡ items (text_of self.old) (offset_of self.new) }
        ensures stops { NoGap (text_of self.old) (offset_of self.new) }
        ensures onward { offset_of self.old ≤ offset_of self.new }
    {
        while let rest @ [byte, ..] = &self.text[self.here.offset..] {
            match class_of(*byte) {
                Class::Blank => self.here.pass_blank(*byte),
                Class::LineEnd => self.here.pass_line_end(line_end_length(rest)),
                _ => return,
            }
        }
    }

    // The lexeme or the fault that stands here, where no blank and no line end does; none at the end of the text.
    pub(super) fn find(&self) -> Option<Found>
        requires no_gap { NoGap (text_of self.now) (offset_of self.now) }
        ensures { MatchOption result (Ends (text_of self.now) (offset_of self.now)) (Finds (text_of self.now) (offset_of self.now)) }
    {
        let at = self.here;
        let rest = &self.text[at.offset..];
        if rest.is_empty() {
            return None;
        }
        // Both arms make a `Found`: with one behind the `match` a pair would stand between.
        match front_run(rest) {
            Some(run) => Some(Found {
                what: judge(at, run),
                after: at.after_run(run.length),
            }),
            None => Some(Found {
                what: Err(fault(at, Reason::UnreadableByte)),
                after: at.after_run(1),
            }),
        }
    }
}
