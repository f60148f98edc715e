use super::*;
use std::test::*;
use trace_fields::Kind;
use trace_text::Line;

#[test]
fn gets_its_lines_in_order(rt: HostRuntime) -> Result<(), Fail> {
    let mut event = Event::new(rt.alloc(), 3, 2)?;
    assert_eq!(rt; event.hart, 3);
    assert_eq!(rt; event.parts, Parts::none());
    assert_eq!(rt; event.asked, Asked);
    assert!(rt; event.lines.is_empty());
    event.add(Line::Q {
        hart: 3,
        k: 4,
        kind: Kind::Value,
    });
    event.add(Line::D { hart: 3, k: 4 });
    let lines = [
        Line::Q {
            hart: 3,
            k: 4,
            kind: Kind::Value,
        },
        Line::D { hart: 3, k: 4 },
    ];
    assert_eq!(rt; event.lines.as_slice(), lines.as_slice());
    Ok(())
}
