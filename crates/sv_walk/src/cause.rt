//! The causes that mcause and scause tell of an access that didn't come about.

ghost use Rattle.std.specs.Prelude.{◌≡◌};
ghost use Rattle.rv_fields.specs.Sv39 as machine;

use rv_fields::Access;

/// The cause of a page fault: the tables don't let the address be used so.
pub fn page_fault(access: Access) -> u64
    ensures { result ≡ machine.page_fault access }
{
    match access {
        Access::Fetch => 12,
        Access::Load => 13,
        Access::Store => 15,
    }
}

/// The cause of an access fault: a physical address at which there is no RAM.
pub fn access_fault(access: Access) -> u64
    ensures { result ≡ machine.access_fault access }
{
    match access {
        Access::Fetch => 1,
        Access::Load => 5,
        Access::Store => 7,
    }
}

/// The cause of the fault of an address that is no multiple of the access's size.
pub fn misaligned(access: Access) -> u64
    ensures { result ≡ machine.misaligned access }
{
    match access {
        Access::Fetch => 0,
        Access::Load => 4,
        Access::Store => 6,
    }
}
