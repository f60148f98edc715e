ghost use Rattle.std.specs.Prelude.{◌≡◌, ◌<◌, ◌≤◌, length, IfOk};

use super::*;
use crate::run::HartProgram;
use ram_image::Ram;
use region_plan::{HartPlan, Plan};
use rv_fields::Mode;
use std::alloc::{AllocError, Global};
use std::test::*;
use value_file::ValueFile;

/// What a hart brings that made these words, and of which this register starts with the value.
fn program(
    alloc: Global,
    words: &[u32],
    register: u8,
    value: u64,
) -> Result<HartProgram, AllocError>
    requires x0 { 0 < register }
    requires register { register < 32 }
    ensures { IfOk result (λ program. program.words.items ≡ words.now) }
{
    let mut values = ValueFile::new();
    values.fix(register, value);
    Ok(HartProgram {
        words: Vec::from_slice(alloc, words)?,
        values,
    })
}

/// A hart of mode M.
const PLAIN: HartPlan = HartPlan {
    mode: Mode::M,
    code_pages: 1,
};

/// A run of two harts without its lines and steps: `addi x1, x1, 5` and a jump to itself by hart 0, and the jump alone
/// by hart 1.
fn run(alloc: Global) -> Result<Run, AllocError>
    ensures { IfOk result (λ run. length run.harts.items ≡ 2) }
{
    let first = program(alloc, &[0x0050_8093, 0x0000_006f], 1, 7)?;
    let second = program(alloc, &[0x0000_006f], 31, u64::MAX)?;
    Ok(Run {
        lines: Vec::new(alloc),
        order: Vec::new(alloc),
        plan: Plan::new(vec![in alloc; PLAIN, PLAIN]?),
        harts: vec![in alloc; first, second]?,
    })
}

/// Where the segments of that run begin, how many addresses they have, and how many bytes.
const SHAPES: [(u64, u64, usize); 4] = [
    (0x8000_0000, 0x3000, 0x2570),
    (0x8002_0000, 0x2000, 0x1018),
    (0x8400_0000, 0x1000, 8),
    (0x8410_0000, 0x1000, 4),
];

#[test]
fn the_segments_of_two_harts(rt: HostRuntime) -> Result<(), Fail> {
    let run = run(rt.alloc())?;
    assert_eq!(rt; run.hart_count(), 2);
    assert!(rt; run.lines().is_empty());
    assert!(rt; run.order().is_empty());
    let segments = run.segments(rt.alloc())?;
    assert_eq!(rt; segments.len(), SHAPES.len());
    for (segment, shape) in segments.iter().zip(&SHAPES) {
        assert_eq!(rt; segment.at, shape.0);
        assert_eq!(rt; segment.size, shape.1);
        assert_eq!(rt; segment.bytes.len(), shape.2);
        assert_eq!(rt; segment.flags, 5);
    }
    Ok(())
}

#[test]
fn the_memory_of_two_harts(rt: HostRuntime) -> Result<(), Fail> {
    let run = run(rt.alloc())?;
    let segments = run.segments(rt.alloc())?;
    let ram = Ram::from_segments(rt.alloc(), &segments)?;
    // addi x6, x0, 2
    assert_eq!(rt; ram.load(0x8000_0004, 4), Some(0x0020_0313));
    // auipc x31, 0 begins both boot blocks, and mret ends them
    assert_eq!(rt; ram.load(0x8000_1000, 4), Some(0x0000_0f97));
    assert_eq!(rt; ram.load(0x8000_2000, 4), Some(0x0000_0f97));
    assert_eq!(rt; ram.load(0x8000_20f8, 4), Some(0x3020_0073));
    // mepc
    assert_eq!(rt; ram.load(0x8000_1430, 8), Some(0x8400_0000));
    assert_eq!(rt; ram.load(0x8000_2430, 8), Some(0x8410_0000));
    // x1 and x31
    assert_eq!(rt; ram.load(0x8000_1478, 8), Some(7));
    assert_eq!(rt; ram.load(0x8000_1568, 8), Some(0));
    assert_eq!(rt; ram.load(0x8000_2478, 8), Some(0));
    assert_eq!(rt; ram.load(0x8000_2568, 8), Some(u64::MAX));
    // the handlers of modes M and S begin with a swap of x31
    assert_eq!(rt; ram.load(0x8002_0000, 4), Some(0x340f_9ff3));
    assert_eq!(rt; ram.load(0x8002_1000, 4), Some(0x140f_9ff3));
    assert_eq!(rt; ram.load(0x8400_0000, 8), Some(0x0000_006f_0050_8093));
    assert_eq!(rt; ram.load(0x8400_0008, 8), Some(0));
    assert_eq!(rt; ram.load(0x8410_0000, 8), Some(0x0000_006f));
    Ok(())
}
