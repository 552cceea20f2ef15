// Where the reader stands: an offset with its line, its column and whether only blanks stand before it on its line.
ghost use Rattle.std.specs.Prelude.{◌≡◌, ◌+◌, ◌*◌, ◌<◌, ◌≤◌, true, false};
ghost use Rattle.reader.specs.Places.{next_column};

#[derive(Clone, Copy)]
pub struct Cursor {
    pub offset: usize,
    pub line: u32,
    pub column: u32,
    pub first: bool,
}

impl Cursor {
    // Goes past a line end of so many bytes.
    pub fn pass_line_end(&mut self, bytes: usize)
        requires { (self.old.offset + bytes < 65537) × (self.old.line < 65537) }
        ensures { self.new ≡ record { offset = self.old.offset + bytes; line = self.old.line + 1; column = 1; first = true } }
    {
        self.offset += bytes;
        self.line += 1;
        self.column = 1;
        self.first = true;
    }

    // Goes past a blank: a tab leads on to the next tab stop.
    pub fn pass_blank(&mut self, byte: u8)
        requires { (self.old.offset < 65536) × ((1 ≤ self.old.column) × (self.old.column ≤ 1 + 8 * self.old.offset)) }
        ensures { self.new ≡ record { offset = self.old.offset + 1; line = self.old.line; column = next_column byte self.old.column; first = self.old.first } }
    {
        self.column = if byte == b'\t' {
            self.column + 8 - (self.column - 1) % 8
        } else {
            self.column + 1
        };
        self.offset += 1;
    }

    // After a run of so many bytes, none of them a blank or a line end.
    pub fn after_run(self, length: usize) -> Cursor
        requires { (self.offset + length < 65536) × (self.column ≤ 1 + 8 * self.offset) }
        ensures { result ≡ record { offset = self.offset + length; line = self.line; column = self.column + length; first = false } }
    {
        Cursor {
            offset: self.offset + length,
            column: self.column + length as u32,
            first: false,
            ..self
        }
    }
}
