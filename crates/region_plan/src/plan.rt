ghost use Rattle.std.specs.Prelude.{◌≡◌, ◌<◌, length, IfOk, Some, slice_get};

use rv_fields::{Mode, NoMemory};
use std::alloc::Global;

/// What a job says of a hart, but for its template.
#[derive(Clone, Copy, Debug, PartialEq, Eq)]
pub struct HartPlan {
    pub mode: Mode,
    /// The pages of its code window.
    pub code_pages: u32,
}

/// The harts of a job.
#[derive(Drop)]
pub struct Plan {
    harts: Vec<HartPlan>,
}

impl Plan {
    pub fn new(harts: Vec<HartPlan>) -> Plan
        ensures { result.harts ≡ harts }
    {
        Plan { harts }
    }

    /// A copy of the plan.
    pub fn try_clone(&self, alloc: Global) -> Result<Plan, NoMemory>
        ensures { IfOk result (λ plan. plan.harts.items ≡ self.now.harts.items) }
    {
        let mut harts = Vec::with_capacity(alloc, self.harts.len())?;
        harts.extend_from_slice(self.harts.as_slice())?;
        Ok(Plan { harts })
    }

    /// The number of harts.
    pub fn hart_count(&self) -> usize
        ensures { result ≡ length self.now.harts.items }
    {
        self.harts.len()
    }

    pub fn hart(&self, hart: u8) -> &HartPlan
        requires { hart < length self.now.harts.items }
        ensures { slice_get self.now.harts.items hart ≡ Some result.now }
    {
        &self.harts[hart as usize]
    }
}
