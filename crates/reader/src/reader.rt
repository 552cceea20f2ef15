// The reader itself; what it does is in the module below, since a contract cannot stand in the file of the struct
// that it speaks of.
ghost use Rattle.std.specs.Prelude.{◌≡◌, ◌≤◌, length};
ghost use Rattle.reader.specs.Items.{spot};

use crate::cursor::Cursor;

pub mod calls;
mod scan;

// A text and where reading goes on in it.
#[derive(Drop)]
pub struct Reader<'a> {
    text: &'a [u8],
    here: Cursor,
    ghost short: { length text.now ≤ 65535 },
    ghost within: { here.offset ≤ length text.now },
    ghost spotted: { here ≡ spot text.now here.offset },
}
