use layout::Resolver;
use table::TableParser;
use whole::resolve;

// `x = 1` is `{ x = 1 }`: five tokens, kept in a list.
#[test]
fn a_sheet_is_resolved_to_its_end(rt: HostRuntime) {
    let mut resolver = Resolver::new(TableParser::new(), 0);
    match resolve(rt.alloc(), b"x = 1", &mut resolver) {
        Ok(Ok(tokens)) => assert_eq!(rt; tokens.len(), 5),
        _ => assert!(rt; false, "no tokens"),
    }
}
