// Lines that are kept whole, and lines that are cut.
use lines::LineBuffer;

#[test]
fn keeps_what_a_rule_may_have(rt: HostRuntime) {
    let mut line = LineBuffer::new();
    assert!(rt; line.is_empty());
    for _ in 0..600 {
        line.push(b'1');
    }
    assert_eq!(rt; line.text().len(), 513);
    line.clear();
    line.push(b'p');
    assert!(rt; !line.is_empty());
    assert_eq!(rt; line.text().len(), 1);
}
