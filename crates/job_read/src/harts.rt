ghost use Rattle.std.specs.Prelude.{◌≡◌, option_map};
ghost use Rattle.serde_json.specs.View.{view, items_view, members_view};
ghost use Rattle.json_keys.specs.Input.{ReadsAs};
ghost use Rattle.region_plan.specs.Request.{no_items};
ghost use Rattle.region_plan.specs.Views.{items_seen, planned_hart, work_of};
ghost use Rattle.job_read.specs.Accepted.{hart_plan, template_at, accepted_hart, harts_of, harts_at};

use crate::requests::items_of;
use json_keys::{InputFault, Members, natural_at, object_of, text_at, value_at};
use region_plan::{HartPlan, Item, Job, MOST_CODE_PAGES, MOST_REQUESTS, Plan};
use rv_fields::{MOST_HARTS, Mode};
use serde_json::Value;
use std::alloc::Global;

/// The harts of a job.
#[tactic(auto, using(json_keys::proofs::Reading::lengths))]
pub(crate) fn harts_at(value: &Value) -> Option<&[Value]>
    ensures { option_map (λ vs. items_view vs.now) result ≡ harts_at (view value.now) }
{
    let members = object_of(2, value)?;
    let version = natural_at("version", members)?;
    let harts = value_at("harts", members)?.as_array()?;
    if version == 1 && 1 <= harts.len() && harts.len() <= MOST_HARTS {
        Some(harts.as_slice())
    } else {
        None
    }
}

/// The job of these harts, in their order.
pub(crate) fn harts_of(alloc: Global, values: &[Value]) -> Result<Job, InputFault>
    ensures { ReadsAs (λ job. (work_of job).harts) result (harts_of (items_view values.now)) }
{
    let mut harts = Vec::with_capacity(alloc, values.len())?;
    let mut templates = Vec::with_capacity(alloc, values.len())?;
    for value in values {
        let (hart, template) = hart_of(alloc, value)?;
        harts.push(hart)?;
        templates.push(template)?;
    }
    Ok(Job::new(Plan::new(harts), templates))
}

/// A hart, and its template.
fn hart_of(alloc: Global, value: &Value) -> Result<(HartPlan, Vec<Item>), InputFault>
    ensures { ReadsAs (λ h. planned_hart h.0 (items_seen h.1.items)) result (accepted_hart (view value.now)) }
{
    let members = object_of(3, value).ok_or(InputFault::NotBuilt)?;
    let hart = hart_plan(members).ok_or(InputFault::NotBuilt)?;
    let values = template_at(members).ok_or(InputFault::NotBuilt)?;
    let template = items_of(alloc, values)?;
    Ok((hart, template))
}

/// What a hart with these keys is but for its template: in mode M, with 1 to 256 pages of code.
fn hart_plan(members: &Members) -> Option<HartPlan>
    ensures { option_map (λ plan. planned_hart plan no_items) result ≡ hart_plan (members_view members.now.entries) }
{
    let mode = text_at("mode", members)?;
    let code_pages = natural_at("code_pages", members)?;
    if mode == "M" && 1 <= code_pages && code_pages <= u64::from(MOST_CODE_PAGES) {
        Some(HartPlan {
            mode: Mode::M,
            code_pages: code_pages as u32,
        })
    } else {
        None
    }
}

/// The template of a hart with these keys.
#[tactic(auto, using(json_keys::proofs::Reading::lengths))]
fn template_at(members: &Members) -> Option<&[Value]>
    ensures { option_map (λ vs. items_view vs.now) result ≡ template_at (members_view members.now.entries) }
{
    let values = value_at("template", members)?.as_array()?;
    if values.len() <= MOST_REQUESTS {
        Some(values.as_slice())
    } else {
        None
    }
}
