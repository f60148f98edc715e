ghost use Rattle.std.specs.Prelude.{◌≡◌, ◌<◌, length, map};

use crate::plan::Plan;
use crate::request::Item;

/// A job: its harts, and a template for each of them.
#[derive(Drop)]
pub struct Job {
    plan: Plan,
    templates: Vec<Vec<Item>>,
    ghost same: { length templates.items ≡ length plan.harts.items },
}

impl Job {
    ghost use Rattle.region_plan.specs.Plan.{hart_count, plan_of};
    ghost use Rattle.region_plan.specs.Views.{IsPlannedBy, harts_seen, items_seen, work_of, work_with};

    /// The job of these harts, with a template for each.
    pub fn new(plan: Plan, templates: Vec<Vec<Item>>) -> Job
        requires { length templates.items ≡ length plan.harts.items }
        ensures plan { result.plan ≡ plan }
        ensures work { work_of result ≡ work_with (harts_seen plan.harts.items (map (λ t. items_seen t.items) templates.items)) }
    {
        Job { plan, templates }
    }

    pub fn plan(&self) -> &Plan
        ensures plan { result.now ≡ self.now.plan }
        ensures planned { IsPlannedBy result.now.harts.items (work_of self.now) }
    {
        &self.plan
    }

    /// The number of harts.
    pub fn hart_count(&self) -> usize
        ensures { result ≡ hart_count (work_of self.now) }
    {
        self.plan.hart_count()
    }

    /// What a hart has to do, in its order.
    pub fn template(&self, hart: u8) -> &[Item]
        requires { hart < hart_count (work_of self.now) }
        ensures { items_seen result.now ≡ (plan_of (work_of self.now) hart).template }
    {
        self.templates[hart as usize].as_slice()
    }
}
