ghost use Rattle.std.specs.Prelude.{◌≡◌, ◌<◌, [], List, IfOk, OnOk, Ok, map, vec_len, ℕ};
ghost use Rattle.region_plan.specs.Plan.{Work, hart_count};
ghost use Rattle.region_plan.specs.Rules.{KeepsRules};
ghost use Rattle.region_plan.specs.Views.{work_of};
ghost use Rattle.world_face.specs.Events as events;

use crate::world::SerialWorld;
use hart_task::{HartLog, HartTask, Turned};
use region_plan::Job;
use rv_fields::NoMemory;
use std::alloc::Global;

/// All harts of a job at work, in one world.
#[derive(Drop)]
pub(crate) struct Harts {
    /// The tasks, in the order of the harts' numbers.
    tasks: Vec<HartTask>,
    world: SerialWorld,
}

impl Harts {
    ghost use Rattle.hart_task.specs.Log.{log_seen};
    ghost use Rattle.hart_task.specs.Schedule.{has_ended};
    ghost use Rattle.serial_world.specs.Running.{AreFinished, AreRunning, AreUnderWay, Leads, TakesAll, TakesAllBelow, TakesEntry, TakesTurn, all_left, logs_kept};

    /// The harts of the job before their first events.
    pub(crate) fn new(alloc: Global, job: &Job, seed: u64) -> Result<Harts, NoMemory>
        requires { KeepsRules (work_of job.now) }
        ensures { IfOk result (λ harts. AreRunning (work_of job.now) seed harts []) }
    {
        let mut tasks = Vec::new(alloc);
        for hart in 0..job.hart_count() as u8 {
            tasks.push(HartTask::new(alloc, hart, seed))?;
        }
        Ok(Harts {
            tasks,
            world: SerialWorld::new(),
        })
    }

    /// The hart's next turn.
    pub(crate) fn turn(&mut self, alloc: Global, job: &Job, hart: u8) -> Result<Turned, NoMemory>
        requires rules { KeepsRules (work_of job.now) }
        requires running { AreUnderWay (work_of job.now) self.old }
        requires member { hart < hart_count (work_of job.now) }
        ensures turn { IfOk result (λ turned. Leads (work_of job.now) self.old self.new (TakesTurn hart turned)) }
        ensures nearer { (place : ℕ) → result ≡ Ok (Turned.Event place) → all_left (work_of job.now) self.new < all_left (work_of job.now) self.old }
    {
        self.tasks[usize::from(hart)].turn(alloc, job, &mut self.world)
    }

    /// The next turn of the hart of an entry, if the job has it.
    pub(crate) fn follow(&mut self, alloc: Global, job: &Job, hart: u8) -> Result<(), NoMemory>
        requires rules { KeepsRules (work_of job.now) }
        requires running { AreUnderWay (work_of job.now) self.old }
        ensures { OnOk result (Leads (work_of job.now) self.old self.new (TakesEntry (hart_count (work_of job.now)) hart)) }
    {
        if usize::from(hart) < job.hart_count() {
            self.turn(alloc, job, hart)?;
        }
        Ok(())
    }

    /// The hart's turns up to its end.
    pub(crate) fn finish(&mut self, alloc: Global, job: &Job, hart: u8) -> Result<(), NoMemory>
        requires rules { KeepsRules (work_of job.now) }
        requires running { AreUnderWay (work_of job.now) self.old }
        requires member { hart < hart_count (work_of job.now) }
        ensures { OnOk result (Leads (work_of job.now) self.old self.new (TakesAll hart)) }
    {
        'turns: while let Turned::Event { .. } = self.turn(alloc, job, hart)? {}
        Ok(())
    }

    /// The turns of each hart up to its end, one hart after another.
    pub(crate) fn finish_all(&mut self, alloc: Global, job: &Job) -> Result<(), NoMemory>
        requires rules { KeepsRules (work_of job.now) }
        requires running { AreUnderWay (work_of job.now) self.old }
        ensures { OnOk result (Leads (work_of job.now) self.old self.new (TakesAllBelow (hart_count (work_of job.now)))) }
    {
        for hart in 0..job.hart_count() as u8 {
            self.finish(alloc, job, hart)?;
        }
        Ok(())
    }

    /// Whether the hart has made its ending step.
    pub(crate) fn finished(&self, hart: u8) -> bool
        requires { hart < vec_len self.now.tasks }
        ensures { (work : Work) (seed : ℕ) (before : List events.Event) → AreRunning work seed self.now before → result ≡ has_ended before hart }
    {
        self.tasks[usize::from(hart)].finished()
    }

    /// What the harts did, in the order of their numbers.
    pub(crate) fn into_logs(self, alloc: Global) -> Result<Vec<HartLog>, NoMemory>
        requires { AreFinished self }
        ensures { IfOk result (λ logs. map log_seen logs.items ≡ logs_kept self) }
    {
        let mut logs = Vec::with_capacity(alloc, self.tasks.len())?;
        for task in self.tasks {
            logs.push(task.into_log())?;
        }
        Ok(logs)
    }
}
