// Texts that are rules, and texts that are not.
use rules::{Rule, read};
use std::test::Fail;

// The number of clauses; or the number of the refusal, and the place that is told.
fn answer(text: &[u8]) -> Result<usize, (u8, Option<usize>)> {
    read(text)
        .map(|rule| rule.count())
        .map_err(|fault| (u8::from(fault.refusal), fault.place))
}

#[test]
fn tells_where_no_rule_goes_on(rt: HostRuntime) {
    assert_eq!(rt; answer(b"p16"), Err((9, Some(2))));
    assert_eq!(rt; answer(b"(p0 & p1"), Err((9, Some(8))));
    assert_eq!(rt; answer(b"A X p0"), Err((9, Some(1))));
    assert_eq!(rt; answer(b"A (p0 U p1)"), Err((9, Some(1))));
    assert_eq!(rt; answer(b"p01"), Err((9, Some(2))));
    assert_eq!(rt; answer(b"   "), Err((9, Some(3))));
}

#[test]
fn moves_negation_inward(rt: HostRuntime) {
    assert_eq!(rt; answer(b" !A( p0 U p1 ) "), Ok(3));
}

#[test]
fn keeps_the_limits(rt: HostRuntime) {
    let mut text = [b'!'; 513];
    text[511] = b'1';
    assert_eq!(rt; answer(&text), Err((8, None)));
    assert_eq!(rt; answer(b""), Err((8, None)));
    assert_eq!(rt; answer(&text[479..512]), Err((10, None)));
    assert_eq!(rt; answer(&text[480..512]), Ok(1));
}

#[test]
fn answers_about_itself(rt: HostRuntime) -> Result<(), Fail> {
    let rule = read(b"AF p3")?;
    assert!(rt; rule.count() == 3 && rule.nesting() == 2);
    assert!(rt; rule.marks_below(4) && !rule.marks_below(3));
    assert!(rt; rule.clause(2).is_some() && rule.clause(3).is_none());
    assert_eq!(rt; rule.clauses().len(), 3);
    assert_eq!(rt; Rule::one().count(), 1);
    Ok(())
}
