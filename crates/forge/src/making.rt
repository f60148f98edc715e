ghost use Rattle.std.specs.Prelude.{◌≡◌, ℕ, List, IfOk, count_by, map};
ghost use Rattle.choice_tree.specs.Forest.{Forest};
ghost use Rattle.region_plan.specs.Plan.{hart_count};
ghost use Rattle.region_plan.specs.Views.{work_of};
ghost use Rattle.region_plan.specs.Rules.{KeepsRules};
ghost use Rattle.trace_text.specs.Lines as told;
ghost use Rattle.trace_text.specs.Views.{line_seen, lines_seen};
ghost use Rattle.world_face.specs.Events as events;
ghost use Rattle.hart_task.specs.Log.{log_seen};
ghost use Rattle.hart_task.specs.Logs.{AreLogsOf};
ghost use Rattle.forge.specs.Generated.{AreFilesOf, IsRunOf, IsCountOf, is_step, tells_done, tells_refused, listed, drawn};

use crate::made::{Counts, Made};
use choice_tree::Trees;
use elf_file::write_elf;
use hart_task::HartLog;
use region_plan::Job;
use run_merge::merge;
use rv_fields::NoMemory;
use serial_world::{run_drawn, run_list};
use std::alloc::Global;
use trace_text::{Line, write_order, write_trace};

/// Runs the job under the schedule, a list of harts, and makes its three files. Entries of harts that are finished or
/// that the job hasn't are passed over; behind the list each hart runs to its end, in rising order. No request names a
/// tree yet, so the trees have no say.
pub fn make_with(
    alloc: Global,
    job: &Job,
    trees: &Trees,
    seed: u64,
    schedule: &[u8],
) -> Result<Made, NoMemory>
    requires rules { KeepsRules (work_of job.now) }
    ensures run { IfOk result (λ made. (lines : List told.Line)
        × IsRunOf (work_of job.now) trees.now seed (listed schedule.now) made.elf.items made.order.items made.trace.items lines
        × IsCountOf made.counts (hart_count (work_of job.now)) lines) }
{
    let _ = trees;
    let logs = run_list(alloc, job, seed, schedule)?;
    make_files(alloc, job, logs)
}

/// Runs the job under the schedule that is drawn from the seed, and makes its three files: each turn is that of the
/// unfinished hart whose index, counted over these in rising order, is the next word of stream 4,096 modulo their
/// number. No request names a tree yet, so the trees have no say.
pub fn make_serial(alloc: Global, job: &Job, trees: &Trees, seed: u64) -> Result<Made, NoMemory>
    requires rules { KeepsRules (work_of job.now) }
    ensures run { IfOk result (λ made. (lines : List told.Line)
        × IsRunOf (work_of job.now) trees.now seed drawn made.elf.items made.order.items made.trace.items lines
        × IsCountOf made.counts (hart_count (work_of job.now)) lines) }
{
    let _ = trees;
    let logs = run_drawn(alloc, job, seed)?;
    make_files(alloc, job, logs)
}

/// The three files of the run that the logs of all harts are.
fn make_files(alloc: Global, job: &Job, logs: Vec<HartLog>) -> Result<Made, NoMemory>
    requires rules { KeepsRules (work_of job.now) }
    requires logs { (seed : ℕ) × (events : List events.Event) × AreLogsOf (work_of job.now) seed (map log_seen logs.items) events }
    ensures files { IfOk result (λ made. (lines : List told.Line)
        × ((trees : Forest) (seed : ℕ) (events : List events.Event) → AreLogsOf (work_of job.now) seed (map log_seen logs.items) events
        → AreFilesOf (work_of job.now) trees seed events made.elf.items made.order.items made.trace.items lines)
        × IsCountOf made.counts (hart_count (work_of job.now)) lines) }
{
    let run = merge(alloc, job, logs)?;
    let harts = run.hart_count();
    let segments = run.segments(alloc)?;
    let mut elf = Vec::new(alloc);
    write_elf(segments.as_slice(), &mut elf)?;
    let mut order = Vec::new(alloc);
    write_order(harts, run.order(), &mut order)?;
    let mut trace = Vec::new(alloc);
    write_trace(harts, run.lines(), &mut trace)?;
    let counts = counts_of(harts, run.lines());
    Ok(Made {
        elf,
        order,
        trace,
        counts,
    })
}

/// What the lines of so many harts tell in numbers.
fn counts_of(harts: u8, lines: &[Line]) -> Counts
    ensures { IsCountOf result harts (lines_seen lines.now) }
{
    Counts {
        harts: u64::from(harts),
        steps: lines.iter().filter(|line| is_step(line)).count() as u64,
        done: lines.iter().filter(|line| is_done(line)).count() as u64,
        refused: lines.iter().filter(|line| is_refused(line)).count() as u64,
    }
}

/// Whether the line tells a step.
fn is_step(line: &Line) -> bool
    ensures { result ≡ is_step (line_seen line.now) }
{
    matches!(line, Line::S(_) | Line::F(_) | Line::E(_))
}

/// Whether the line tells that a request is done.
fn is_done(line: &Line) -> bool
    ensures { result ≡ tells_done (line_seen line.now) }
{
    matches!(line, Line::D { .. })
}

/// Whether the line tells that a request is refused.
fn is_refused(line: &Line) -> bool
    ensures { result ≡ tells_refused (line_seen line.now) }
{
    matches!(line, Line::R { .. })
}
