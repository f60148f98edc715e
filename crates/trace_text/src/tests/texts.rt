//! Lines that are written as a text, and read from it again.
use crate::{Line, StepLine, TraceLines, read_trace, write_order, write_trace};
use rv_fields::{Name, name_of};
use std::test::*;
use trace_fields::{AccessText, Cause, EntryText, Kind, LineFault, TrailText, TrapText};

/// The trace of the first example.
const EXAMPLE: &str =
    "trace 1 1\nq 0 0 ins\ns 0 84000000 84000000 00500093 1:5 - - -\nd 0 0\ne 0 84000004 84000004 0000006f - - - -\n";

/// Texts that are traces, with the number of their lines.
const TRACES: [(&str, usize); 8] = [
    (EXAMPLE, 4),
    ("trace 1 16\n", 0),
    (
        "trace 1 2\nq 0 3 mem\nq 0 4 jump\nq 0 5 csr\nq 0 6 sys\nq 0 7 value\nq 0 8 loop\nq 0 9 pick\nq 1 0 set\n",
        8,
    ),
    (
        "trace 1 2\np 1 t a.b abc\nw 0 t a/b_1 7\nw 0 t a/b/c/d/e/f/g/h 0\nx 0 31 0\ng 0 o 2 11\nm 0 1 80001000 0\n",
        6,
    ),
    (
        "trace 1 2\ny 0 85000000 001fa0\ny 1 86000008 0011223344556677\nd 1 4\n",
        3,
    ),
    (
        "trace 1 2\nr 1 4 empty-choice 0\nr 1 4 budget-spent 0\nr 1 4 no-register 0\nr 1 4 no-address 0\nr 1 4 no-target 0\nr 1 4 window-full 0\nr 1 4 no-free-page 0\nr 1 4 no-place 8\n",
        8,
    ),
    (
        "trace 1 2\ns 1 1000 84000000 0000b083 1:ff l:2000:85000000:8:ff:- 80001000:20000401,80002000:df -\nf 0 80020000 80020000 340f9ff3 31:0 - - -\ne 0 1000 84000000 00000073 - - - 15:20000:10000:S\n",
        3,
    ),
    (
        "trace 1 2\ns 0 0 0 1873242f 8:0 c:10000:86000000:4:-:9 - -\ns 0 0 0 0000002f 8:0 a:10000:86000000:4:ffffffff:9 0:0,1:1,2:2,3:3 -\n",
        2,
    ),
];

/// Whether these lines of so many harts are written as this text, and read from it.
fn is_text_of(text: &str, harts: u8, lines: &[Line], rt: &HostRuntime) -> Result<bool, Fail> {
    let mut written = Vec::new(rt.alloc());
    write_trace(harts, lines, &mut written)?;
    let (told, read) = read_trace(rt.alloc(), text.as_bytes())?;
    Ok(written.as_slice() == text.as_bytes() && told == harts && read.as_slice() == lines)
}

/// Whether the text is read as so many lines, which are written as the same text.
fn is_read_back(text: &str, lines: usize, rt: &HostRuntime) -> Result<bool, Fail> {
    let (harts, read) = read_trace(rt.alloc(), text.as_bytes())?;
    let mut written = Vec::new(rt.alloc());
    write_trace(harts, &read, &mut written)?;
    Ok(read.len() == lines && written.as_slice() == text.as_bytes())
}

/// Whether this is read next, and the line behind it has this number.
fn reads_next(
    lines: &mut TraceLines,
    next: Result<Option<Line>, LineFault>,
    number: u64,
    rt: &HostRuntime,
) -> bool {
    lines.next(rt.alloc()) == next && lines.number() == number
}

fn name(text: &str) -> Result<Name, Fail> {
    Ok(name_of(text.as_bytes()).ok_or("no name")?)
}

/// A step of hart 0 that writes no register, with no access, no trail and no trap.
fn step(pc: u64, pa: u64, word: u32) -> StepLine {
    StepLine {
        hart: 0,
        pc,
        pa,
        word,
        rd: None,
        access: None,
        trail: TrailText::new(),
        trap: None,
    }
}

/// A load of eight bytes by a translated address.
fn load() -> Result<StepLine, Fail> {
    let root = EntryText {
        at: 0x8000_1000,
        pte: 0x2000_0401,
    };
    let leaf = EntryText {
        at: 0x8000_2000,
        pte: 0xdf,
    };
    let mut load = step(0x1000, 0x8400_0000, 0x0000_b083);
    load.hart = 1;
    load.rd = Some((1, 0xff));
    load.access = Some(AccessText {
        kind: b'l',
        va: 0x2000,
        pa: 0x8500_0000,
        size: 8,
        read: Some(0xff),
        wrote: None,
    });
    load.trail = TrailText::new().with_entry(root).ok_or("no room")?;
    load.trail = load.trail.with_entry(leaf).ok_or("no room")?;
    Ok(load)
}

/// An AMO of four bytes.
fn swap() -> StepLine {
    let mut swap = step(0x8400_0010, 0x8400_0010, 0x0811_21af);
    swap.rd = Some((31, 0xffff_ffff_8000_0001));
    swap.access = Some(AccessText {
        kind: b'a',
        va: 0x8000_0abc,
        pa: 0x8000_0abc,
        size: 4,
        read: Some(0x8000_0001),
        wrote: Some(0),
    });
    swap
}

/// An `ecall` from user mode, which machine mode handles.
fn trapped() -> StepLine {
    let mut trapped = step(0x1000, 0x8400_0000, 0x0000_0073);
    trapped.trap = Some(TrapText {
        cause: 8,
        epc: 0x1000,
        tval: 0,
        to: b'M',
    });
    trapped
}

#[test]
fn each_form_is_read_back(rt: HostRuntime) -> Result<(), Fail> {
    for (text, lines) in TRACES {
        assert!(rt; is_read_back(text, lines, &rt)?, "at {text}");
    }
    Ok(())
}

#[test]
fn the_first_example(rt: HostRuntime) -> Result<(), Fail> {
    let kind = Kind::Ins;
    let mut first = step(0x8400_0000, 0x8400_0000, 0x0050_0093);
    first.rd = Some((1, 5));
    let last = step(0x8400_0004, 0x8400_0004, 0x0000_006f);
    let lines = [
        Line::Q {
            hart: 0,
            k: 0,
            kind,
        },
        Line::S(first),
        Line::D { hart: 0, k: 0 },
        Line::E(last),
    ];
    assert!(rt; is_text_of(EXAMPLE, 1, &lines, &rt)?);
    Ok(())
}

#[test]
fn requests(rt: HostRuntime) -> Result<(), Fail> {
    let kind = Kind::Mem;
    let cause = Cause::NoPlace;
    let k = u32::MAX;
    let lines = [
        Line::Q {
            hart: 0,
            k: 3,
            kind,
        },
        Line::D { hart: 0, k },
        Line::R {
            hart: 1,
            k: 4,
            cause,
            pre: 8,
        },
    ];
    let text = "trace 1 2\nq 0 3 mem\nd 0 4294967295\nr 1 4 no-place 8\n";
    assert!(rt; is_text_of(text, 2, &lines, &rt)?);
    Ok(())
}

#[test]
fn choices(rt: HostRuntime) -> Result<(), Fail> {
    let tree = name("t")?;
    let leaf = name("a.b")?;
    let mut path = Vec::new(rt.alloc());
    path.push(name("a")?)?;
    path.push(name("b_1")?)?;
    let lines = [
        Line::P {
            hart: 1,
            tree,
            leaf,
            word16: 0xabc,
        },
        Line::W {
            hart: 0,
            tree,
            path,
            weight: 7,
        },
    ];
    let text = "trace 1 2\np 1 t a.b abc\nw 0 t a/b_1 7\n";
    assert!(rt; is_text_of(text, 2, &lines, &rt)?);
    Ok(())
}

#[test]
fn starting_values(rt: HostRuntime) -> Result<(), Fail> {
    let value = 0xABCD_EF01_2345_6789;
    let mut bytes = Vec::new(rt.alloc());
    bytes.extend_from_slice(&[0x00, 0x1f, 0xa0])?;
    let lines = [
        Line::X {
            hart: 0,
            reg: 1,
            value: 0,
        },
        Line::X {
            hart: 12,
            reg: 31,
            value,
        },
        Line::Y {
            hart: 0,
            at: 0x8500_0000,
            bytes,
        },
    ];
    let text = "trace 1 16\nx 0 1 0\nx 12 31 abcdef0123456789\ny 0 85000000 001fa0\n";
    assert!(rt; is_text_of(text, 16, &lines, &rt)?);
    Ok(())
}

#[test]
fn pages_and_entries(rt: HostRuntime) -> Result<(), Fail> {
    let object = name("o")?;
    let at = 0x8010_4080;
    let pte = 0x2180_00d7;
    let lines = [
        Line::G {
            hart: 0,
            object,
            page: 2,
            frame: 11,
        },
        Line::M {
            hart: 0,
            space: 1,
            at: 0x8000_1000,
            pte: 0,
        },
        Line::M {
            hart: 0,
            space: 15,
            at,
            pte,
        },
    ];
    let text = "trace 1 2\ng 0 o 2 11\nm 0 1 80001000 0\nm 0 15 80104080 218000d7\n";
    assert!(rt; is_text_of(text, 2, &lines, &rt)?);
    Ok(())
}

#[test]
fn steps(rt: HostRuntime) -> Result<(), Fail> {
    let lines = [Line::S(load()?), Line::F(swap()), Line::E(trapped())];
    let text =
        "trace 1 2\ns 1 1000 84000000 0000b083 1:ff l:2000:85000000:8:ff:- 80001000:20000401,80002000:df -\nf 0 84000010 84000010 081121af 31:ffffffff80000001 a:80000abc:80000abc:4:80000001:0 - -\ne 0 1000 84000000 00000073 - - - 8:1000:0:M\n";
    assert!(rt; is_text_of(text, 2, &lines, &rt)?);
    Ok(())
}

#[test]
fn large_values_in_lower_case(rt: HostRuntime) -> Result<(), Fail> {
    let mut large = step(u64::MAX, 0xABCD, u32::MAX);
    large.hart = 255;
    large.rd = Some((31, u64::MAX));
    let shown = format!(in rt.alloc(); "<{}>", Line::S(large))?;
    let text = "<s 255 ffffffffffffffff abcd ffffffff 31:ffffffffffffffff - - ->";
    assert_eq!(rt; shown.as_str(), text);
    Ok(())
}

#[test]
fn appends_to_what_is_there(rt: HostRuntime) -> Result<(), Fail> {
    let mut text = Vec::new(rt.alloc());
    write_order(1, &[], &mut text)?;
    write_trace(255, &[Line::D { hart: 254, k: 7 }], &mut text)?;
    write_order(1, &[], &mut text)?;
    let written = "order 1 1\ntrace 1 255\nd 254 7\norder 1 1\n";
    assert_eq!(rt; text.as_slice(), written.as_bytes());
    Ok(())
}

#[test]
fn one_line_after_another(rt: HostRuntime) -> Result<(), Fail> {
    let mut lines = TraceLines::of("trace 1 2\nd 1 7\nd 0 3\n".as_bytes())?;
    assert_eq!(rt; (lines.harts(), lines.number()), (2, 2));
    for (next, number) in [
        (Some(Line::D { hart: 1, k: 7 }), 3),
        (Some(Line::D { hart: 0, k: 3 }), 4),
        (None, 4),
        (None, 4),
    ] {
        assert!(rt; reads_next(&mut lines, Ok(next), number, &rt));
    }
    Ok(())
}

#[test]
fn stops_at_a_fault_in_the_third_line(rt: HostRuntime) -> Result<(), Fail> {
    let mut lines = TraceLines::of("trace 1 2\nd 1 7\nd 2 3\nd 0 3\n".as_bytes())?;
    let fault = LineFault::At { line: 3, field: 2 };
    for next in [Ok(Some(Line::D { hart: 1, k: 7 })), Err(fault), Err(fault)] {
        assert!(rt; reads_next(&mut lines, next, 3, &rt));
    }
    Ok(())
}

#[test]
fn no_proper_prefix_is_read_as_the_whole(rt: HostRuntime) {
    for length in 0..EXAMPLE.len() {
        match read_trace(rt.alloc(), &EXAMPLE.as_bytes()[..length]) {
            Ok((_, lines)) => assert!(rt; lines.len() < 4),
            Err(fault) => assert!(rt; fault != LineFault::Memory),
        }
    }
}
