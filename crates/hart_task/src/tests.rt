ghost use Rattle.std.specs.Prelude.{◌≤◌, ◌<◌, IsTrue, length, IfOk};
ghost use Rattle.std.specs.List.{AllByRecursion};
ghost use Rattle.rv_fields.specs.Immediate.{fits_i};
ghost use Rattle.region_plan.specs.Rules.{IsMakeable, KeepsRules, most_requests};
ghost use Rattle.region_plan.specs.Views.{work_of};
ghost use Rattle.hart_task.specs.Asking.{item_seen};
ghost use Rattle.hart_task.specs.Task.{IsTaskOf};

use super::*;
use region_plan::{HartPlan, InsChoice, Item, Job, Pins, Plan, Request};
use rv_fields::{Ins, Mode};
use std::alloc::{AllocError, Global};
use std::process::Abort;
use std::test::*;
use trace_fields::{Kind, TrailText};
use trace_text::{Line, StepLine};
use world_face::{Asked, Event, Parts, Taken, World};

/// A world that counts places.
#[derive(Drop)]
struct Places {
    next: u64,
}

/// The places that it counts.
const PLACES: u64 = 1000;

impl World for Places {
    ghost use Rattle.std.specs.Prelude.{◌≤◌, ◌-◌, length};

    ghost stands = { λ w. λ events. length events ≤ w.next };

    ghost room = { λ w. 1000 - w.next };

    fn take(&mut self, _parts: &Parts) -> Taken {
        Taken
    }

    fn give_up(&mut self, _taken: Taken) {}

    fn commit(&mut self, _event: &Event, _taken: Taken) -> u64 {
        let place = self.next;
        self.next += 1;
        place
    }
}

/// The request of an `addi` of x0.
fn addi(rd: u8, imm: i64) -> Item
    requires register { rd < 32 }
    requires fits { IsTrue (fits_i imm) }
    ensures { IsMakeable (item_seen result) }
{
    Item::One(Request::Ins {
        ins: InsChoice::Named(Ins::Addi),
        pins: Pins {
            rd: Some(rd),
            rs1: Some(0),
            imm: Some(imm),
            ..Pins::none()
        },
    })
}

/// The request of a sum.
fn add(rd: u8, rs1: u8, rs2: u8) -> Item
    requires { (rd < 32) × (rs1 < 32) × (rs2 < 32) }
    ensures { IsMakeable (item_seen result) }
{
    Item::One(Request::Ins {
        ins: InsChoice::Named(Ins::Add),
        pins: Pins {
            rd: Some(rd),
            rs1: Some(rs1),
            rs2: Some(rs2),
            ..Pins::none()
        },
    })
}

/// The job of one hart with this template.
fn job_of(alloc: Global, template: Vec<Item>) -> Result<Job, AllocError>
    requires room { length template.items ≤ most_requests }
    requires requests { AllByRecursion (λ item. IsMakeable (item_seen item)) template.items }
    ensures { IfOk result (λ job. KeepsRules (work_of job)) }
{
    let hart = HartPlan {
        mode: Mode::M,
        code_pages: 1,
    };
    Ok(Job::new(Plan::new(vec![in alloc; hart]?), vec![in alloc; template]?))
}

/// Hart 0 of the job, before its first event.
fn hart_0(alloc: Global, job: &Job) -> HartTask
    requires { KeepsRules (work_of job.now) }
    ensures { IsTaskOf (work_of job.now) result }
{
    HartTask::new(alloc, 0, 7)
}

/// The line by which hart 0 begins the request.
fn begun(k: u32) -> Line {
    Line::Q {
        hart: 0,
        k,
        kind: Kind::Ins,
    }
}

/// What hart 0 does by a word whose virtual and physical address are one.
fn step_at(place: u64, word: u32, rd: Option<(u8, u64)>) -> StepLine {
    StepLine {
        hart: 0,
        pc: place,
        pa: place,
        word,
        rd,
        access: None,
        trail: TrailText::new(),
        trap: None,
    }
}

/// Takes a turn.
fn turn(
    rt: &impl Abort,
    alloc: Global,
    task: &mut HartTask,
    job: &Job,
    world: &mut Places,
) -> Result<Turned, Fail>
    requires rules { KeepsRules (work_of job.now) }
    requires task { IsTaskOf (work_of job.now) task.old }
    ensures task { IsTaskOf (work_of job.now) task.new }
{
    assert!(rt; world.next < PLACES);
    Ok(task.turn(alloc, job, world)?)
}

/// Asserts that the event of this number is hart 0's, took this place, and tells this.
fn assert_event(rt: &impl Abort, log: &HartLog, index: usize, place: u64, lines: &[Line]) {
    assert!(rt; index < log.events.len());
    let placed = &log.events[index];
    assert_eq!(rt; placed.place, place);
    assert_eq!(rt; placed.event.hart, 0);
    assert_eq!(rt; placed.event.parts, Parts::none());
    assert_eq!(rt; placed.event.asked, Asked);
    assert_eq!(rt; placed.event.lines.as_slice(), lines);
}

#[test]
fn answers_a_request_and_ends(rt: HostRuntime) -> Result<(), Fail> {
    let alloc = rt.alloc();
    let job = job_of(alloc, vec![in alloc; addi(1, 5)]?)?;
    let mut task = hart_0(alloc, &job);
    let mut world = Places { next: 40 };
    assert_eq!(rt;
        turn(&rt, alloc, &mut task, &job, &mut world)?,
        Turned::Event { place: 40 }
    );
    assert_eq!(rt;
        turn(&rt, alloc, &mut task, &job, &mut world)?,
        Turned::Event { place: 41 }
    );
    assert!(rt; !task.finished());
    world.next = 50;
    assert_eq!(rt;
        turn(&rt, alloc, &mut task, &job, &mut world)?,
        Turned::Event { place: 50 }
    );
    assert!(rt; task.finished());
    assert_eq!(rt;
        turn(&rt, alloc, &mut task, &job, &mut world)?,
        Turned::Finished
    );
    assert!(rt; task.finished());
    assert_eq!(rt; world.next, 51);
    let log = task.into_log();
    let made = step_at(0x8400_0000, 0x0050_0093, Some((1, 5)));
    let ending = step_at(0x8400_0004, 0x0000_006f, None);
    assert_event(&rt, &log, 0, 40, &[begun(0)]);
    assert_event(
        &rt,
        &log,
        1,
        41,
        &[Line::S(made), Line::D { hart: 0, k: 0 }],
    );
    assert_event(&rt, &log, 2, 50, &[Line::E(ending)]);
    assert_eq!(rt; log.events.len(), 3);
    assert_eq!(rt; log.words.as_slice(), [0x0050_0093, 0x0000_006f].as_slice());
    Ok(())
}

#[test]
fn ends_at_once_with_no_requests(rt: HostRuntime) -> Result<(), Fail> {
    let alloc = rt.alloc();
    let job = job_of(alloc, Vec::new(alloc))?;
    let mut task = hart_0(alloc, &job);
    let mut world = Places { next: 0 };
    assert_eq!(rt;
        turn(&rt, alloc, &mut task, &job, &mut world)?,
        Turned::Event { place: 0 }
    );
    assert_eq!(rt;
        turn(&rt, alloc, &mut task, &job, &mut world)?,
        Turned::Finished
    );
    assert!(rt; task.finished());
    assert_eq!(rt; world.next, 1);
    let log = task.into_log();
    assert_event(
        &rt,
        &log,
        0,
        0,
        &[Line::E(step_at(0x8400_0000, 0x0000_006f, None))],
    );
    assert_eq!(rt; log.events.len(), 1);
    assert_eq!(rt; log.words.as_slice(), [0x0000_006f].as_slice());
    Ok(())
}

/// Takes so many turns, each an event at the next place, up to the hart's ending step.
fn assert_run(rt: &impl Abort, alloc: Global, job: &Job, turns: u64) -> Result<HartLog, Fail>
    requires { KeepsRules (work_of job.now) }
{
    let mut task = hart_0(alloc, job);
    let mut world = Places { next: 0 };
    for place in 0..turns {
        assert!(rt; !task.finished());
        assert_eq!(rt;
            turn(rt, alloc, &mut task, job, &mut world)?,
            Turned::Event { place }
        );
    }
    assert!(rt; task.finished());
    Ok(task.into_log())
}

#[test]
fn writes_x0_by_no_line_and_x2_by_all_ones(rt: HostRuntime) -> Result<(), Fail> {
    let alloc = rt.alloc();
    let job = job_of(alloc, vec![in alloc; addi(0, -1), addi(2, -1)]?)?;
    let log = assert_run(&rt, alloc, &job, 5)?;
    let first = step_at(0x8400_0000, 0xfff0_0013, None);
    let second = step_at(0x8400_0004, 0xfff0_0113, Some((2, u64::MAX)));
    let ending = step_at(0x8400_0008, 0x0000_006f, None);
    assert_event(&rt, &log, 0, 0, &[begun(0)]);
    assert_event(
        &rt,
        &log,
        1,
        1,
        &[Line::S(first), Line::D { hart: 0, k: 0 }],
    );
    assert_event(&rt, &log, 2, 2, &[begun(1)]);
    assert_event(
        &rt,
        &log,
        3,
        3,
        &[Line::S(second), Line::D { hart: 0, k: 1 }],
    );
    assert_event(&rt, &log, 4, 4, &[Line::E(ending)]);
    assert_eq!(rt;
        log.words.as_slice(),
        [0xfff0_0013, 0xfff0_0113, 0x0000_006f].as_slice()
    );
    Ok(())
}

/// The first words of stream 1 of seed 7, as another implementation of the generator gives them.
const FIRST: u64 = 0xe0bc_229a_2c4f_d98a;

const SECOND: u64 = 0x883b_e818_776e_53b8;

/// The line that fixes a register of hart 0.
fn fixed(reg: u32, value: u64) -> Line {
    Line::X {
        hart: 0,
        reg,
        value,
    }
}

/// Asserts what hart 0 tells when it makes the word of one sum.
fn assert_sum(rt: &impl Abort, alloc: Global, item: Item, lines: &[Line]) -> Result<(), Fail>
    requires { IsMakeable (item_seen item) }
{
    let job = job_of(alloc, vec![in alloc; item]?)?;
    let log = assert_run(rt, alloc, &job, 3)?;
    assert_event(rt, &log, 1, 1, lines);
    Ok(())
}

#[test]
fn draws_both_sources(rt: HostRuntime) -> Result<(), Fail> {
    let lines = [
        fixed(1, FIRST),
        fixed(2, SECOND),
        Line::S(step_at(0x8400_0000, 0x0020_81b3, Some((3, 0x68f8_0ab2_a3be_2d42)))),
        Line::D { hart: 0, k: 0 },
    ];
    assert_sum(&rt, rt.alloc(), add(3, 1, 2), &lines)
}

#[test]
fn draws_one_source_once(rt: HostRuntime) -> Result<(), Fail> {
    let lines = [
        fixed(1, FIRST),
        Line::S(step_at(0x8400_0000, 0x0010_81b3, Some((3, 0xc178_4534_589f_b314)))),
        Line::D { hart: 0, k: 0 },
    ];
    assert_sum(&rt, rt.alloc(), add(3, 1, 1), &lines)
}

#[test]
fn draws_a_source_that_is_written(rt: HostRuntime) -> Result<(), Fail> {
    let lines = [
        fixed(31, FIRST),
        Line::S(step_at(0x8400_0000, 0x01f0_0fb3, Some((31, FIRST)))),
        Line::D { hart: 0, k: 0 },
    ];
    assert_sum(&rt, rt.alloc(), add(31, 0, 31), &lines)
}

#[test]
fn draws_for_a_sum_that_goes_nowhere(rt: HostRuntime) -> Result<(), Fail> {
    let lines = [
        fixed(2, FIRST),
        fixed(1, SECOND),
        Line::S(step_at(0x8400_0000, 0x0011_0033, None)),
        Line::D { hart: 0, k: 0 },
    ];
    assert_sum(&rt, rt.alloc(), add(0, 2, 1), &lines)
}

#[test]
fn draws_no_register_that_was_touched(rt: HostRuntime) -> Result<(), Fail> {
    let alloc = rt.alloc();
    let job = job_of(
        alloc,
        vec![in alloc; addi(1, 5), add(2, 1, 3), add(4, 2, 3)]?,
    )?;
    let log = assert_run(&rt, alloc, &job, 7)?;
    let sum = FIRST.wrapping_add(5);
    let first = step_at(0x8400_0004, 0x0030_8133, Some((2, sum)));
    let second = step_at(0x8400_0008, 0x0031_0233, Some((4, FIRST.wrapping_add(sum))));
    assert_event(&rt, &log, 2, 2, &[begun(1)]);
    assert_event(
        &rt,
        &log,
        3,
        3,
        &[fixed(3, FIRST), Line::S(first), Line::D { hart: 0, k: 1 }],
    );
    assert_event(&rt, &log, 4, 4, &[begun(2)]);
    assert_event(
        &rt,
        &log,
        5,
        5,
        &[Line::S(second), Line::D { hart: 0, k: 2 }],
    );
    assert_eq!(rt; log.values.initial(3), FIRST);
    assert_eq!(rt; log.values.initial(1), 0);
    Ok(())
}
