//! Orders that are written as a text, and read from it again.
use crate::{read_order, write_order};
use std::test::*;
use trace_fields::LineFault;

/// Whether this order of so many harts is written as this text, and read from it.
fn is_text_of(text: &str, harts: u8, order: &[u8], rt: &HostRuntime) -> Result<bool, Fail> {
    let mut written = Vec::new(rt.alloc());
    write_order(harts, order, &mut written)?;
    let (told, read) = read_order(rt.alloc(), text.as_bytes())?;
    Ok(written.as_slice() == text.as_bytes() && told == harts && read.as_slice() == order)
}

#[test]
fn of_few_runs(rt: HostRuntime) -> Result<(), Fail> {
    assert!(rt; is_text_of("order 1 3\n", 3, &[], &rt)?);
    assert!(rt; is_text_of("order 1 1\n0 72\n", 1, &[0; 72], &rt)?);
    let text = "order 1 16\n0 2\n1 1\n0 1\n15 2\n2 1\n";
    assert!(rt; is_text_of(text, 16, &[0, 0, 1, 0, 15, 15, 2], &rt)?);
    Ok(())
}

#[test]
fn of_long_runs(rt: HostRuntime) -> Result<(), Fail> {
    let mut order = Vec::new(rt.alloc());
    order.extend_from_slice(&[0; 70])?;
    order.extend_from_slice(&[1; 70])?;
    order.extend_from_slice(&[0, 0, 1, 1])?;
    let text = "order 1 2\n0 70\n1 70\n0 2\n1 2\n";
    assert!(rt; is_text_of(text, 2, &order, &rt)?);
    Ok(())
}

#[test]
fn no_proper_prefix_is_read_as_the_whole(rt: HostRuntime) {
    let text = "order 1 1\n0 72\n";
    for length in 0..text.len() {
        match read_order(rt.alloc(), &text.as_bytes()[..length]) {
            Ok((_, order)) => assert!(rt; order.len() < 72),
            Err(fault) => assert!(rt; fault != LineFault::Memory),
        }
    }
}
