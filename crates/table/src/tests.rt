// Sentences and near-sentences, expected kinds, and the operations on examples.
use crate::*;
use parser::{ExpectedKinds, Probing, Refused, Stepping, expected_kinds, take_all};

fn expected_after(kinds: &[u32]) -> ExpectedKinds {
    let mut parser = TableParser::new();
    let _ = take_all(&mut parser, kinds);
    expected_kinds(&parser)
}

// Whether these kinds are flagged, and no other number is.
fn only(found: &ExpectedKinds, kinds: &[u32]) -> bool {
    (0..20u32).all(|kind| found.has(kind) == kinds.contains(&kind))
}

#[test]
fn sentences(rt: HostRuntime) {
    assert!(rt; is_sentence(&[3, 4]), "{}", "{ }");
    assert!(rt;
        is_sentence(&[
            3, 1, 14, 3, 1, 8, 2, 5, 1, 8, 1, 10, 2, 4, 5, 1, 8, 11, 3, 1, 8, 2, 4, 12, 1, 4,
        ],),
        "{}",
        "{ mill of { ne3 = 120 ; ne4 = ne3 + 5 } ; pier = let { a = 2 } in a }"
    );
    assert!(rt;
        is_sentence(&[3, 1, 8, 6, 15, 3, 1, 8, 2, 4, 7, 4]),
        "{}",
        "{ a = ( do { b = 1 } ) }"
    );
}

#[test]
fn near_sentences(rt: HostRuntime) {
    assert!(rt; !is_sentence(&[]), "nothing");
    assert!(rt; !is_sentence(&[3]), "{}", "{");
    assert!(rt; !is_sentence(&[3, 4, 4]), "{}", "{ } }");
    assert!(rt; !is_sentence(&[3, 1, 4]), "{}", "{ a }");
    assert!(rt; !is_sentence(&[3, 1, 8, 2, 7, 4]), "{}", "{ a = 1 ) }");
    assert!(rt; !is_sentence(&[3, 1, 14, 4]), "{}", "{ a of }");
    assert!(rt; !is_sentence(&[3, 16, 4]), "no symbol above 15 is a kind");
}

#[test]
fn expected(rt: HostRuntime) {
    assert!(rt; only(&expected_after(&[]), &[3]), "at the start");
    assert!(rt;
        only(&expected_after(&[3, 1, 14, 3]), &[1, 4, 5]),
        "{}",
        "{ mill of {"
    );
    assert!(rt;
        only(&expected_after(&[3, 1, 8, 2]), &[4, 5, 10, 13]),
        "{}",
        "{ a = 1"
    );
    assert!(rt;
        only(&expected_after(&[3, 1, 8, 6, 2]), &[7, 9, 10]),
        "{}",
        "{ a = ( 1"
    );
    assert!(rt; only(&expected_after(&[3, 4]), &[]), "{}", "{ }");
}

#[test]
fn refusals(rt: HostRuntime) {
    let mut parser = TableParser::new();
    assert_eq!(rt; take_all(&mut parser, &[3, 1, 8, 2]), 4);
    assert!(rt; parser.take(7).is_err(), ") is not viable");
    assert!(rt; parser.viable(13), "and leaves what may follow");
    parser.mark();
    assert_eq!(rt; take_all(&mut parser, &[5, 4]), 2);
    assert!(rt; parser.complete());
    parser.back();
    assert!(rt; !parser.complete());
    assert_eq!(rt; take_all(&mut parser, &[10, 1, 4]), 3);
    assert!(rt; parser.complete());
}

#[test]
fn reach(rt: HostRuntime) {
    let mut parser = TableParser::new();
    assert!(rt; parser.take(3).is_ok());
    for _ in 0..1023 {
        assert!(rt; parser.take(5).is_ok());
    }
    assert_eq!(rt;
        parser.take(7).map_err(Refused::number),
        Err(11),
        ") is taken"
    );
    assert_eq!(rt;
        parser.take(4).map_err(Refused::number),
        Err(12),
        "one more is taken"
    );
}

#[test]
fn filled(rt: HostRuntime) {
    // Two `for`s: a chain over both numbers would count no shorter.
    let mut count = 0u8;
    for symbol in 0..40u8 {
        for kind in 0..40u32 {
            if entry(symbol, kind) != 0 {
                count = count.saturating_add(1);
            }
        }
    }
    assert_eq!(rt; count, entries_filled());
}
