ghost use Rattle.std.specs.Prelude.{◌≤◌, length, IfOk};
ghost use Rattle.rv_fields.specs.Play.{most_harts};
ghost use Rattle.region_plan.specs.Plan.{no_hart};
ghost use Rattle.region_plan.specs.Rules.{IsMakeable, IsPlainHart, KeepsRules};
ghost use Rattle.region_plan.specs.Views.{items_seen, work_of};
ghost use Rattle.hart_task.specs.Asking.{item_seen};

use super::*;
use hart_task::HartLog;
use region_plan::{HartPlan, InsChoice, Item, Job, Pins, Plan, Request};
use rv_fields::{Ins, MOST_HARTS, Mode};
use std::alloc::{AllocError, Global};
use std::process::Abort;
use std::test::Fail;

/// `addi x5,x1,7`.
fn item() -> Item
    ensures { IsMakeable (item_seen result) }
{
    Item::One(Request::Ins {
        ins: InsChoice::Named(Ins::Addi),
        pins: Pins {
            rd: Some(5),
            rs1: Some(1),
            imm: Some(7),
            ..Pins::none()
        },
    })
}

/// A template of so many requests.
fn template_of(alloc: Global, requests: u8) -> Result<Vec<Item>, AllocError>
    ensures { IfOk result (λ t. IsPlainHart (record no_hart { template = items_seen t.items })) }
{
    let mut template = Vec::new(alloc);
    while template.len() < usize::from(requests) {
        template.push(item())?;
    }
    Ok(template)
}

/// A job of harts that have so many requests each.
fn job_of(alloc: Global, requests: &[u8]) -> Result<Job, AllocError>
    requires { (1 ≤ length requests.now) × (length requests.now ≤ most_harts) }
    ensures { IfOk result (λ job. KeepsRules (work_of job)) }
{
    let mut harts = Vec::new(alloc);
    let mut templates = Vec::new(alloc);
    for count in requests {
        harts.push(HartPlan {
            mode: Mode::M,
            code_pages: 1,
        })?;
        templates.push(template_of(alloc, *count)?)?;
    }
    Ok(Job::new(Plan::new(harts), templates))
}

/// Asserts at which places the events of the log are.
fn assert_places(rt: &impl Abort, log: &HartLog, places: &[u64]) {
    assert_eq!(rt; log.events.len(), places.len());
    for (placed, place) in log.events.iter().zip(places) {
        assert_eq!(rt; placed.place, *place);
    }
}

/// Asserts at which places the events of each hart are, where the harts take turns as the list says.
fn assert_list(
    rt: &impl Abort,
    alloc: Global,
    requests: &[u8],
    schedule: &[u8],
    places: &[&[u64]],
) -> Result<(), Fail>
    requires { (1 ≤ length requests.now) × (length requests.now ≤ most_harts) }
{
    let job = job_of(alloc, requests)?;
    let logs = run_list(alloc, &job, 7, schedule)?;
    assert_eq!(rt; logs.len(), places.len());
    for (log, places) in logs.iter().zip(places) {
        assert_places(rt, log, places);
    }
    Ok(())
}

#[test]
fn runs_one_hart(rt: HostRuntime) -> Result<(), Fail> {
    assert_list(&rt, rt.alloc(), &[2], &[], &[&[0, 1, 2, 3, 4]])
}

#[test]
fn begins_with_the_listed_hart(rt: HostRuntime) -> Result<(), Fail> {
    assert_list(&rt, rt.alloc(), &[1, 1], &[1], &[&[1, 2, 3], &[0, 4, 5]])
}

#[test]
fn passes_over_a_finished_hart(rt: HostRuntime) -> Result<(), Fail> {
    let schedule = [1, 1, 0, 1, 2];
    assert_list(
        &rt,
        rt.alloc(),
        &[1, 0, 1],
        &schedule,
        &[&[1, 3, 4], &[0], &[2, 5, 6]],
    )
}

#[test]
fn passes_over_harts_that_are_not_there(rt: HostRuntime) -> Result<(), Fail> {
    assert_list(&rt, rt.alloc(), &[0, 0], &[2, 1, 255], &[&[1], &[0]])
}

#[test]
fn draws_the_turns_of_three_harts(rt: HostRuntime) -> Result<(), Fail> {
    let job = job_of(rt.alloc(), &[2, 0, 1])?;
    let logs = run_drawn(rt.alloc(), &job, 7)?;
    assert_eq!(rt; logs.len(), 3);
    assert_places(&rt, &logs[0], &[3, 4, 6, 7, 8]);
    assert_places(&rt, &logs[1], &[1]);
    assert_places(&rt, &logs[2], &[0, 2, 5]);
    Ok(())
}

#[test]
fn draws_the_turns_of_all_harts(rt: HostRuntime) -> Result<(), Fail> {
    let job = job_of(rt.alloc(), &[1; MOST_HARTS])?;
    let logs = run_drawn(rt.alloc(), &job, 7)?;
    assert_eq!(rt; logs.len(), MOST_HARTS);
    assert_places(&rt, &logs[0], &[9, 10, 14]);
    assert_places(&rt, &logs[4], &[0, 4, 6]);
    assert_places(&rt, &logs[15], &[1, 5, 41]);
    Ok(())
}
