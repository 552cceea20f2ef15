use crate::drain;
use queue::Queue;
use sheet::Token;
use std::test::Fail;

#[test]
fn draining_takes_all_in_order(rt: HostRuntime) -> Result<(), Fail> {
    let mut places = [Token::default(); 2];
    let mut queue = Queue::new(&mut places);
    let brace = Token {
        kind: 3,
        ..Token::default()
    };
    let _ = queue.put(brace);
    let _ = queue.put(Token::default());
    let mut tokens = Vec::new(rt.alloc());
    drain(&mut queue, &mut tokens)?;
    assert_eq!(rt; tokens.len(), 2);
    assert_eq!(rt; tokens[0], brace);
    assert!(rt; queue.is_empty());
    Ok(())
}
