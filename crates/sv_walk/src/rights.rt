//! Who may use a page, and how.

ghost use Rattle.std.specs.Prelude.{◌≡◌};
ghost use Rattle.rv_fields.specs.Sv39 as machine;
ghost use Rattle.sv_walk.specs.Views.{rights_seen};

use crate::entry::{is_accessed, is_dirty, is_executable, is_of_user, is_readable, is_writable};
use rv_fields::{Access, Mode};

/// By what rights an address is used: the mode that counts for the access, and SUM and MXR of mstatus.
#[derive(Clone, Copy, Debug, PartialEq, Eq)]
pub struct Rights {
    pub mode: Mode,
    pub sum: bool,
    pub mxr: bool,
}

/// Whether a leaf lets its page be used so. Else that is a page fault.
pub fn allows(access: Access, rights: &Rights, pte: u64) -> bool
    ensures { result ≡ machine.allows access (rights_seen rights.now) pte }
{
    allows_access(access, rights, pte) && allows_mode(access, rights, pte) && is_accessed(pte)
}

/// Whether the kind of access is allowed.
fn allows_access(access: Access, rights: &Rights, pte: u64) -> bool
    ensures { result ≡ machine.allows_access access (rights_seen rights.now) pte }
{
    match access {
        Access::Fetch => is_executable(pte),
        Access::Load => is_readable(pte) || (is_executable(pte) && rights.mxr),
        Access::Store => is_writable(pte) && is_dirty(pte),
    }
}

/// Whether the mode may use the page.
fn allows_mode(access: Access, rights: &Rights, pte: u64) -> bool
    ensures { result ≡ machine.allows_mode access (rights_seen rights.now) rights.now.mode pte }
{
    match (access, rights.mode) {
        (_, Mode::U) => is_of_user(pte),
        (Access::Fetch, Mode::S | Mode::M) => !is_of_user(pte),
        (Access::Load | Access::Store, Mode::S | Mode::M) => !is_of_user(pte) || rights.sum,
    }
}
