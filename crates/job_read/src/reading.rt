ghost use Rattle.std.specs.Prelude.{◌≡◌, option_map, IfOk};
ghost use Rattle.serde_json.specs.View.{view};
ghost use Rattle.json_keys.specs.Input.{ReadsAs};
ghost use Rattle.region_plan.specs.Rules.{KeepsRules};
ghost use Rattle.region_plan.specs.Views.{work_of};
ghost use Rattle.job_read.specs.Accepted.{job_of, job_in};

use crate::harts::{harts_at, harts_of};
use json_keys::{InputFault, document};
use region_plan::Job;
use serde_json::Value;
use std::alloc::Global;

/// Reads the job that a JSON file spells.
#[tactic(auto, using(crate::proofs::Rules::reads_rules))]
pub fn read_job(alloc: Global, bytes: &[u8]) -> Result<Job, InputFault>
    ensures job { ReadsAs work_of result (job_in bytes.now) }
    ensures rules { IfOk result (λ job. KeepsRules (work_of job)) }
{
    let value = document(alloc, bytes)?;
    job_of(alloc, &value)
}

fn job_of(alloc: Global, value: &Value) -> Result<Job, InputFault>
    ensures { ReadsAs work_of result (job_of (view value.now)) }
{
    let harts = harts_at(value).ok_or(InputFault::NotBuilt)?;
    harts_of(alloc, harts)
}
