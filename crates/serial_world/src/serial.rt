ghost use Rattle.std.specs.Prelude.{◌≡◌, [], List, IfOk, map};
ghost use Rattle.std.specs.List.{range_with_len};
ghost use Rattle.region_plan.specs.Plan.{hart_count};
ghost use Rattle.region_plan.specs.Rules.{KeepsRules};
ghost use Rattle.region_plan.specs.Views.{work_of};
ghost use Rattle.world_face.specs.Events.{Event};
ghost use Rattle.hart_task.specs.Log.{log_seen};
ghost use Rattle.hart_task.specs.Schedule.{FollowsList, FollowsSeed};
ghost use Rattle.hart_task.specs.Logs.{AreLogsOf};

use crate::harts::Harts;
use choice_tree::DrawWords;
use hart_task::HartLog;
use region_plan::Job;
use rv_fields::NoMemory;
use std::alloc::{AllocError, Global};

/// The stream from which the order of turns is drawn.
const SCHEDULE_STREAM: u64 = 4096;

/// Runs all harts of the job, and hands out their logs in the order of their numbers. Each entry of the schedule is a
/// turn of its hart; it is passed over where that hart is finished, or where the job hasn't it. Behind the last entry
/// each hart that isn't finished runs to its end, one after another.
pub fn run_list(
    alloc: Global,
    job: &Job,
    seed: u64,
    schedule: &[u8],
) -> Result<Vec<HartLog>, NoMemory>
    requires rules { KeepsRules (work_of job.now) }
    ensures run { IfOk result (λ logs. (events : List Event)
        × AreLogsOf (work_of job.now) seed (map log_seen logs.items) events
        × FollowsList (hart_count (work_of job.now)) [] schedule.now events) }
{
    let mut harts = Harts::new(alloc, job, seed)?;
    for hart in schedule {
        harts.follow(alloc, job, *hart)?;
    }
    harts.finish_all(alloc, job)?;
    harts.into_logs(alloc)
}

/// Runs all harts of the job, and hands out their logs in the order of their numbers. Each turn is that of the
/// unfinished hart whose index, counted over these in rising order, is the next word of stream 4096 modulo their
/// number.
pub fn run_drawn(alloc: Global, job: &Job, seed: u64) -> Result<Vec<HartLog>, NoMemory>
    requires rules { KeepsRules (work_of job.now) }
    ensures run { IfOk result (λ logs. (events : List Event)
        × AreLogsOf (work_of job.now) seed (map log_seen logs.items) events
        × FollowsSeed (hart_count (work_of job.now)) seed [] events) }
{
    let mut harts = Harts::new(alloc, job, seed)?;
    let mut unfinished = first_numbers(alloc, job.hart_count() as u8)?;
    let mut draws = DrawWords::new(seed, SCHEDULE_STREAM);
    'turns: while !unfinished.is_empty() {
        let index = (draws.next() % unfinished.len() as u64) as usize;
        let hart = unfinished[index];
        harts.turn(alloc, job, hart)?;
        if harts.finished(hart) {
            unfinished.remove(index);
        }
    }
    harts.into_logs(alloc)
}

/// So many numbers from 0 on.
fn first_numbers(alloc: Global, count: u8) -> Result<Vec<u8>, AllocError>
    ensures { IfOk result (λ numbers. numbers.items ≡ range_with_len 0 count) }
{
    (0..count).collect(alloc)
}
