use super::*;
use std::test::*;

#[test]
fn only_x0_is_touched_before_any_event(rt: HostRuntime) {
    let file = ValueFile::new();
    assert_eq!(rt; file.read(0), Some(0));
    assert!(rt; file.touched(0));
    assert!(rt; !file.is_fixed(0));
    for reg in 1..32 {
        assert_eq!(rt; file.read(reg), None);
        assert!(rt; !file.touched(reg));
        assert!(rt; !file.is_fixed(reg));
        assert_eq!(rt; file.initial(reg), 0);
    }
}

#[test]
fn a_fixed_register_keeps_its_starting_value(rt: HostRuntime) {
    let mut file = ValueFile::new();
    assert!(rt; !file.touched(31));
    file.fix(31, 7);
    assert_eq!(rt; file.read(31), Some(7));
    file.write(31, 8);
    assert!(rt; file.is_fixed(31));
    assert_eq!(rt; file.read(31), Some(8));
    assert_eq!(rt; file.initial(31), 7);
    assert_eq!(rt; file.read(30), None);
}

#[test]
fn a_written_register_has_no_starting_value(rt: HostRuntime) {
    let mut file = ValueFile::new();
    file.write(1, u64::MAX);
    file.write(0, 5);
    assert!(rt; file.touched(1));
    assert!(rt; !file.is_fixed(1));
    assert_eq!(rt; file.read(1), Some(u64::MAX));
    assert_eq!(rt; file.initial(1), 0);
    assert_eq!(rt; file.read(0), Some(0));
}
