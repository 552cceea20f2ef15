use crate::{Reader, Stop, TooLong, check};
use queue::{Full, Queue};
use sheet::{Fault, Kind, Lexeme, Place, Reason};

fn unreadable(column: u32) -> Stop {
    Stop::Fault(Fault {
        reason: Reason::UnreadableByte,
        line: 1,
        column,
        context: None,
    })
}

// Where a reader stands in a text without lexemes and faults after it was read.
fn end_of(text: &[u8]) -> Place {
    let mut places = [Lexeme::default(); 0];
    let mut queue = Queue::new(&mut places);
    let mut reader = Reader::open(text);
    let _ = reader.read(&mut queue);
    reader.place()
}

#[test]
fn a_text_of_no_bytes_ends_at_once(rt: HostRuntime) {
    let mut places = [Lexeme::default(); 1];
    let mut queue = Queue::new(&mut places);
    let mut reader = Reader::open(b"");
    assert_eq!(rt; reader.read(&mut queue), Ok(0));
    assert_eq!(rt; reader.place(), Place { line: 1, column: 1 });
}

#[test]
fn a_text_too_long_is_read_as_empty(rt: HostRuntime) {
    let text = [b'a'; 65_536];
    assert_eq!(rt; check(&text[1..]), Ok(()));
    assert_eq!(rt; check(&text), Err(TooLong));
    let mut places = [Lexeme::default(); 1];
    let mut queue = Queue::new(&mut places);
    let mut reader = Reader::open(&text);
    assert_eq!(rt; reader.read(&mut queue), Ok(0));
}

#[test]
fn a_queue_of_no_places_takes_no_lexeme(rt: HostRuntime) {
    let mut places = [Lexeme::default(); 0];
    let mut queue = Queue::new(&mut places);
    let mut reader = Reader::open(b"@a");
    assert_eq!(rt; reader.read(&mut queue), Err(unreadable(1)));
    assert_eq!(rt; reader.read(&mut queue), Err(Stop::Full(Full)));
    assert_eq!(rt; reader.read(&mut queue), Err(Stop::Full(Full)));
    let mut at_end = Reader::open(b" ");
    assert_eq!(rt; at_end.read(&mut queue), Ok(0));
}

#[test]
fn reading_goes_on_where_the_queue_was_full(rt: HostRuntime) {
    let mut places = [Lexeme::default(); 1];
    let mut queue = Queue::new(&mut places);
    let mut reader = Reader::open(b"a b");
    assert_eq!(rt; reader.read(&mut queue), Err(Stop::Full(Full)));
    let _ = queue.take();
    assert_eq!(rt; reader.read(&mut queue), Ok(1));
}

#[test]
fn a_return_and_a_line_feed_end_one_line(rt: HostRuntime) {
    assert_eq!(rt; end_of(b"\r\n"), Place { line: 2, column: 1 });
    assert_eq!(rt; end_of(b"\n\r"), Place { line: 3, column: 1 });
    assert_eq!(rt; end_of(b"\r\r\n"), Place { line: 3, column: 1 });
}

// Five bytes are blanks and line ends. Each reading tells which of the two counts grows.
#[test]
fn each_byte_alone(rt: HostRuntime) {
    let mut places = [Lexeme::default(); 1];
    let mut queue = Queue::new(&mut places);
    let mut lexemes = 0u32;
    let mut faults = 0u32;
    for byte in 0..=255u8 {
        let text = [byte];
        let mut reader = Reader::open(&text);
        match reader.read(&mut queue) {
            Ok(count) => lexemes = lexemes.saturating_add(count),
            Err(Stop::Fault(_)) => faults = faults.saturating_add(1),
            Err(Stop::Full(_)) => {}
        }
        let _ = queue.take();
    }
    assert_eq!(rt; lexemes, 74);
    assert_eq!(rt; faults, 177);
}

#[test]
fn a_second_point_is_no_part_of_a_number(rt: HostRuntime) {
    let mut places = [Lexeme::default(); 2];
    let mut queue = Queue::new(&mut places);
    let mut reader = Reader::open(b"1.5.6");
    assert_eq!(rt; reader.read(&mut queue), Err(unreadable(4)));
    assert_eq!(rt; reader.read(&mut queue), Ok(1));
    let number = Lexeme {
        kind: Kind::Number.number(),
        line: 1,
        column: 1,
        first: true,
        offset: 0,
        length: 3,
    };
    assert_eq!(rt; queue.take(), Some(number));
    let rest = Lexeme {
        column: 5,
        first: false,
        offset: 4,
        length: 1,
        ..number
    };
    assert_eq!(rt; queue.take(), Some(rest));
}
