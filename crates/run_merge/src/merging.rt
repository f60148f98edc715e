ghost use Rattle.std.specs.Prelude.{◌≡◌, ◌<◌, ◌≤◌, ◌^◌, ◌++◌, ℕ, List, IfOk, OnOk, Some, None, length, map, replicate, set};
ghost use Rattle.std.specs.List.{AllByRecursion};
ghost use Rattle.std.specs.Option.{option_map};
ghost use Rattle.region_plan.specs.Plan.{hart_count};
ghost use Rattle.region_plan.specs.Rules.{KeepsRules};
ghost use Rattle.region_plan.specs.Views.{IsPlannedBy, work_of};
ghost use Rattle.choice_tree.specs.Forest.{Forest};
ghost use Rattle.trace_text.specs.Lines.{effects_of, starting};
ghost use Rattle.trace_text.specs.Orders.{IsOrder};
ghost use Rattle.trace_text.specs.Views.{lines_seen};
ghost use Rattle.world_face.specs.Events as seen;
ghost use Rattle.world_face.specs.Views.{all_placed, event_seen};
ghost use Rattle.hart_task.specs.Log.{LogSeen, log_seen};
ghost use Rattle.hart_task.specs.Logs.{AreLogsOf};
ghost use Rattle.hart_task.specs.OneRun.{all_lines};
ghost use Rattle.run_merge.specs.Answers.{Answers};
ghost use Rattle.run_merge.specs.FromReset.{FromReset};
ghost use Rattle.run_merge.specs.Image.{AreImagesOf};
ghost use Rattle.run_merge.specs.Justified.{Justified};
ghost use Rattle.run_merge.specs.Order.{whole_order};
ghost use Rattle.run_merge.specs.Run.{images_of, log_image, run_lines};
ghost use Rattle.run_merge.specs.Slots.{FitIn, all_slotted, event_count, logs_seen, slot_lines, slots_lines, slots_seen, slotted};

use crate::order::order_of;
use crate::run::{HartProgram, Run};
use hart_task::HartLog;
use region_plan::Job;
use rv_fields::NoMemory;
use std::alloc::Global;
use trace_text::Line;
use world_face::{Event, Placed};

/// The run that the logs of all harts are: the lines of their events by place, the order of the steps, and what each
/// hart brings to the program.
pub fn merge(alloc: Global, job: &Job, logs: Vec<HartLog>) -> Result<Run, NoMemory>
    requires rules { KeepsRules (work_of job.now) }
    requires logs { (seed : ℕ) × (events : List seen.Event) × AreLogsOf (work_of job.now) seed (map log_seen logs.items) events }
    ensures lines { IfOk result (λ run. (seed : ℕ) (events : List seen.Event)
        → AreLogsOf (work_of job.now) seed (map log_seen logs.items) events → run_lines run ≡ all_lines events) }
    ensures images { IfOk result (λ run. images_of run.harts.items ≡ map (λ log. log_image (log_seen log)) logs.items) }
    ensures order { IfOk result (λ run. run.order.items
        ≡ whole_order (hart_count (work_of job.now)) (effects_of (run_lines run))) }
    ensures count { IfOk result (λ run. length run.harts.items ≡ hart_count (work_of job.now)) }
    ensures plan { IfOk result (λ run. IsPlannedBy run.plan.harts.items (work_of job.now)) }
    // What the harts bring to the program is what the lines tell of them.
    ensures program { IfOk result (λ run. AreImagesOf (work_of job.now) (run_lines run) (images_of run.harts.items)) }
    // The lines answer the job under the seed, whatever the trees.
    ensures answers { IfOk result (λ run. (forest : Forest) (seed : ℕ) (events : List seen.Event)
        → AreLogsOf (work_of job.now) seed (map log_seen logs.items) events → Answers (work_of job.now) forest seed events (run_lines run)) }
    // Whatever else stands in memory and registers, the harts do what the lines tell.
    ensures justified { IfOk result (λ run. Justified (work_of job.now) (run_lines run)) }
    // From every reset the harts boot, and then do what the lines tell.
    ensures boots { IfOk result (λ run. FromReset (work_of job.now) (run_lines run)) }
    // All of it can be spelt.
    ensures ranges { IfOk result (λ run. IsOrder (hart_count (work_of job.now)) run.order.items) }
    ensures values { IfOk result (λ run. (h r v : ℕ) → starting (run_lines run) h r ≡ Some v → (1 ≤ r) × (r < 32) × (v < 2 ^ 64)) }
{
    let mut slots = empty_slots(alloc, logs.as_slice())?;
    let harts = programs_of(alloc, logs, slots.as_mut_slice())?;
    let lines = lines_of(alloc, slots)?;
    let order = order_of(alloc, job.hart_count() as u8, lines.as_slice())?;
    Ok(Run {
        lines,
        order,
        plan: job.plan().try_clone(alloc)?,
        harts,
    })
}

/// An empty slot for each event of the logs.
fn empty_slots(alloc: Global, logs: &[HartLog]) -> Result<Vec<Option<Event>>, NoMemory>
    ensures { IfOk result (λ slots. slots_seen slots.items ≡ replicate (event_count (logs_seen logs.now)) None) }
{
    let mut slots = Vec::new(alloc);
    for log in logs {
        add_empty_slots(&mut slots, log.events.len())?;
    }
    Ok(slots)
}

/// Adds so many empty slots.
fn add_empty_slots(slots: &mut Vec<Option<Event>>, count: usize) -> Result<(), NoMemory>
    ensures { OnOk result (slots_seen slots.new.items ≡ slots_seen slots.old.items ++ replicate count None) }
{
    for _ in 0..count {
        slots.push(None)?;
    }
    Ok(())
}

/// What each hart brings to the program. The events of its log go to the slots of their places.
fn programs_of(
    alloc: Global,
    logs: Vec<HartLog>,
    slots: &mut [Option<Event>],
) -> Result<Vec<HartProgram>, NoMemory>
    requires { AllByRecursion (λ (log : LogSeen). FitIn (length slots.old) log.events) (logs_seen logs.items) }
    ensures slots { OnOk result (slots_seen slots.new ≡ all_slotted (logs_seen logs.items) (slots_seen slots.old)) }
    ensures images { IfOk result (λ harts. images_of harts.items ≡ map log_image (logs_seen logs.items)) }
{
    let mut harts = Vec::with_capacity(alloc, logs.len())?;
    for HartLog {
        events,
        words,
        values,
    } in logs {
        place_events(events, slots);
        harts.push(HartProgram { words, values })?;
    }
    Ok(harts)
}

/// Moves each event to the slot of its place.
fn place_events(events: Vec<Placed>, slots: &mut [Option<Event>])
    requires { FitIn (length slots.old) (all_placed events.items) }
    ensures { slots_seen slots.new ≡ slotted (all_placed events.items) (slots_seen slots.old) }
{
    for placed in events {
        place_event(placed, slots);
    }
}

/// Moves an event to the slot of its place.
fn place_event(placed: Placed, slots: &mut [Option<Event>])
    requires { placed.place < length slots.old }
    ensures { slots_seen slots.new ≡ set (slots_seen slots.old) placed.place (Some (event_seen placed.event)) }
{
    let Placed { place, event } = placed;
    slots[place as usize] = Some(event);
}

/// The lines of the events in the slots, one event after another.
fn lines_of(alloc: Global, slots: Vec<Option<Event>>) -> Result<Vec<Line>, NoMemory>
    ensures { IfOk result (λ lines. lines_seen lines.items ≡ slots_lines (slots_seen slots.items)) }
{
    let mut lines = Vec::new(alloc);
    for slot in slots {
        add_lines(&mut lines, slot)?;
    }
    Ok(lines)
}

/// Adds the lines of the event in a slot; none where it is empty.
fn add_lines(lines: &mut Vec<Line>, slot: Option<Event>) -> Result<(), NoMemory>
    ensures { OnOk result (lines_seen lines.new.items ≡ lines_seen lines.old.items ++ slot_lines (option_map event_seen slot)) }
{
    match slot {
        Some(mut event) => lines.append(&mut event.lines)?,
        None => {}
    }
    Ok(())
}
