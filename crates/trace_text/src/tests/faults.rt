//! The faults of texts that aren't in their form: their first line that has one, and its field.
use crate::{read_order, read_trace};
use std::alloc::Global;
use std::test::*;
use trace_fields::LineFault;

/// Texts that are no traces.
const TRACES: [(&str, (u64, u32)); 10] = [
    ("", (1, 1)),
    ("\n", (1, 1)),
    ("order 1 1\n", (1, 1)),
    ("trace 2 1\n", (1, 2)),
    ("trace 1 0\n", (1, 3)),
    ("trace 1 17\n", (1, 3)),
    ("trace 1 1", (1, 4)),
    ("trace 1 1 \n", (1, 4)),
    ("trace 1 1\nd 0 0\nd 0 0", (3, 4)),
    (
        "trace 1 1\nq 0 0 ins\ns 0 84000000 84000000 00500093 1:05 - - -\n",
        (3, 6),
    ),
];

/// Lines that a trace of two harts has not, with the field that is wrong.
const LINES: [(&str, u32); 37] = [
    ("", 1),
    ("z 0 1", 1),
    ("dd 0 1", 1),
    ("d 2 1", 2),
    ("d", 2),
    ("d 0 4294967296", 3),
    ("d 0 0 ", 4),
    ("q 0 0 repeat", 4),
    ("p 0 T a 0", 3),
    ("p 0 t a", 5),
    ("w 0 t a/b//c 7", 4),
    ("w 0 t a/b/c/d/e/f/g/h/i 0", 4),
    ("x 0 0 5", 3),
    ("x 0 32 5", 3),
    ("x 0 1 A", 4),
    ("x 0 1 05", 4),
    ("x 0 1 +5", 4),
    ("x 0 1 10000000000000000", 4),
    ("m 0 16 0 0", 3),
    ("y 0 0 001", 4),
    ("y 0 0 ", 4),
    ("y 0 0 001122334455667788", 4),
    ("r 0 4 no-place 4", 5),
    ("r 0 4 no-luck 8", 4),
    ("s 0 0 0 00b083 - - - -", 5),
    ("s 0 0 0 0000b083 0:1 - - -", 6),
    ("s 0 0 0 0000b083 1:1:1 - - -", 6),
    ("s 0 0 0 0000b083 - l:0:0:1:100:- - -", 7),
    ("s 0 0 0 0000b083 - l:0:0:3:0:- - -", 7),
    ("s 0 0 0 0000b083 - x:0:0:1:0:- - -", 7),
    ("s 0 0 0 0000b083 - l:0:0:1:0 - -", 7),
    ("s 0 0 0 0000b083 - - 0:0,0:0,0:0,0:0,0:0 -", 8),
    ("s 0 0 0 0000b083 - - 0:0, -", 8),
    ("s 0 0 0 0000b083 - - - 16:0:0:M", 9),
    ("s 0 0 0 0000b083 - - - 0:0:0:U", 9),
    ("s 0 0 0 0000b083 - - -", 9),
    ("s 0 0 0 0000b083 - - - - -", 10),
];

/// Texts that are no orders.
const ORDERS: [(&str, (u64, u32)); 14] = [
    ("", (1, 1)),
    ("order 1 1", (1, 4)),
    ("order 1", (1, 3)),
    ("order 1 17\n", (1, 3)),
    ("order 1 01\n", (1, 3)),
    ("order 1 1 \n", (1, 4)),
    ("order 1 1\n0 0\n", (2, 2)),
    ("order 1 1\n0 36\n0 36\n", (3, 1)),
    ("order 1 1\n0 1048577\n", (2, 2)),
    ("order 1 1\n0 +1\n", (2, 2)),
    ("order 1 1\n0 01\n", (2, 2)),
    ("order 1 1\n0 72", (2, 3)),
    ("order 1 1\n0 72\n\n", (3, 1)),
    ("order 1 2\n0 1048575\n1 2\n", (3, 2)),
];

fn place<T: Drop>(read: Result<T, LineFault>) -> Option<(u64, u32)> {
    match read {
        Err(LineFault::At { line, field }) => Some((line, field)),
        _ => None,
    }
}

fn in_trace(alloc: Global, text: &str) -> Option<(u64, u32)> {
    place(read_trace(alloc, text.as_bytes()))
}

fn in_order(alloc: Global, text: &str) -> Option<(u64, u32)> {
    place(read_order(alloc, text.as_bytes()))
}

#[test]
fn of_traces(rt: HostRuntime) {
    for (text, fault) in TRACES {
        assert_eq!(rt; in_trace(rt.alloc(), text), Some(fault), "at {text}");
    }
}

#[test]
fn of_lines(rt: HostRuntime) -> Result<(), Fail> {
    for (line, field) in LINES {
        let text = format!(in rt.alloc(); "trace 1 2\n{line}\n")?;
        assert_eq!(rt; in_trace(rt.alloc(), &text), Some((2, field)), "at {line}");
    }
    Ok(())
}

#[test]
fn of_orders(rt: HostRuntime) {
    for (text, fault) in ORDERS {
        assert_eq!(rt; in_order(rt.alloc(), text), Some(fault), "at {text}");
    }
}
