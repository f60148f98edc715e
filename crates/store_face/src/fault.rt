ghost use Rattle.std.specs.Prelude.{◌≡◌, ◌≤◌, ◌+◌, ◌-◌, ◌^◌, min};
ghost use Rattle.store_face.specs.State.{Rose};

use rv_fields::NoMemory;
use std::alloc::AllocError;

/// Why a call of a store did nothing of use.
#[derive(Clone, Copy, Debug, PartialEq, Eq)]
pub enum StoreFault {
    /// The read or the write failed. The store has counted it.
    Failed,
    /// Out of memory.
    Memory,
}

impl From<AllocError> for StoreFault {
    ghost use Rattle.store_face.specs.declared.fault.StoreFault.TheVariants.{Memory};

    ghost from_gives = { λ _ fault. fault ≡ Memory };

    fn from(_: AllocError) -> StoreFault {
        StoreFault::Memory
    }
}

impl From<NoMemory> for StoreFault {
    ghost use Rattle.store_face.specs.declared.fault.StoreFault.TheVariants.{Memory};

    ghost from_gives = { λ _ fault. fault ≡ Memory };

    fn from(_: NoMemory) -> StoreFault {
        StoreFault::Memory
    }
}

/// Counts a call on the name that failed, and copies the name into `last`: the fault to answer with. Where there is
/// no memory for the name, that is the fault, and nothing is counted.
pub(crate) fn record_fault(name: &str, faults: &mut u64, last: &mut Vec<u8>) -> StoreFault
    ensures counts_up { faults.old ≤ faults.new }
    ensures rose { result ≡ StoreFault.Failed → Rose faults.old faults.new }
    ensures counted { result ≡ StoreFault.Failed → faults.new ≡ min (faults.old + 1) (2 ^ 64 - 1) }
    ensures named { result ≡ StoreFault.Failed → last.new.items ≡ name.now }
    ensures not_counted { result ≡ StoreFault.Memory → faults.new ≡ faults.old }
    ensures not_named { result ≡ StoreFault.Memory → last.new.items ≡ last.old.items }
{
    let Ok(copy) = Vec::from_slice(*last.allocator(), name.as_bytes()) else {
        return StoreFault::Memory;
    };
    *last = copy;
    *faults = faults.saturating_add(1);
    StoreFault::Failed
}
