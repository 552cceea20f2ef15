use crate::{Full, Queue};

#[test]
fn no_places_refuse(rt: HostRuntime) {
    let mut places = [0u8; 0];
    let mut line = Queue::new(&mut places);
    assert_eq!(rt; line.put(1), Err(Full));
    assert_eq!(rt; line.take(), None);
    assert_eq!(rt; Full.number(), 19);
}

#[test]
fn one_place_holds_one(rt: HostRuntime) {
    let mut places = [0u8; 1];
    let mut line = Queue::new(&mut places);
    assert_eq!(rt; line.put(1), Ok(()));
    assert_eq!(rt; line.put(2), Err(Full));
    assert_eq!(rt; line.take(), Some(1));
    assert_eq!(rt; line.take(), None);
}

#[test]
fn order_is_kept_past_the_end(rt: HostRuntime) {
    let mut places = [0u8; 3];
    let mut line = Queue::new(&mut places);
    let _ = line.put(1);
    let _ = line.put(2);
    let _ = line.put(3);
    assert_eq!(rt; line.take(), Some(1));
    let _ = line.put(4);
    assert_eq!(rt; line.take(), Some(2));
    assert_eq!(rt; line.take(), Some(3));
    assert_eq!(rt; line.take(), Some(4));
}

#[test]
fn counts_follow(rt: HostRuntime) {
    let mut places = [0u8; 3];
    let mut line = Queue::new(&mut places);
    assert!(rt; line.is_empty() && line.free() == 3);
    let _ = line.put(1);
    let _ = line.put(2);
    assert!(rt; !line.is_empty() && line.len() == 2 && line.free() == 1);
}
