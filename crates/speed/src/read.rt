// Reading: a text from its first byte to its end, through a queue that is emptied whenever it is full.
ghost use Rattle.std.specs.Prelude.{◌≡◌, Ok as told_lexeme};
ghost use Rattle.speed.specs.Sums.{stop_weight, total, weight as told_weight};

use crate::weighed::{Weighed, take_all};
use queue::Queue;
use reader::{Reader, Stop};
use sheet::Lexeme;

// The reader works through so many places.
const PLACES: usize = 64;

// Not by the weight of its token: the sum is told in the order of the fields.
impl Weighed for Lexeme {
    ghost weight = { λ lexeme. told_weight (told_lexeme lexeme) };

    fn weigh(self) -> u64 {
        u64::from(self.kind)
            + u64::from(self.line)
            + u64::from(self.column)
            + u64::from(self.first)
            + u64::from(self.offset)
            + u64::from(self.length)
    }
}

// The end of a reading adds its fault, if it has one.
impl Weighed for Stop {
    ghost weight = { stop_weight };

    fn weigh(self) -> u64 {
        match self {
            Stop::Fault(fault) => fault.weigh(),
            Stop::Full(_) => 0,
        }
    }
}

// Reads a text to its end and adds up all that it tells; one that is too long is read as empty. A loop of its own beside
// that of `whole`: it reads and resolves nothing.
#[unsafe(no_mangle)]
pub extern "C" fn speed_read(text: &[u8]) -> u64
    ensures { result ≡ total text.now }
{
    let mut places = [Lexeme::default(); PLACES];
    let mut queue = Queue::new(&mut places);
    let mut reader = Reader::open(text);
    let mut sum = 0;
    loop {
        let answer = reader.read(&mut queue);
        sum = take_all(&mut queue, sum);
        match answer {
            Ok(_) => return sum,
            Err(stop) => sum = sum.wrapping_add(stop.weigh()),
        }
    }
}
