ghost use Rattle.std.specs.Prelude.{◌≡◌};
ghost use Rattle.trace_fields.specs.Letters.{letter_of_kind};

use rv_fields::{AccessKind, Accessed};
use std::marker::Model;

/// What a step read or wrote in memory.
#[derive(Clone, Copy, Debug, PartialEq, Eq)]
pub struct AccessText {
    /// The letter of its kind: `l` a load, `s` a store, `r` an LR, `c` an SC, `a` an AMO.
    pub kind: u8,
    /// Its virtual address.
    pub va: u64,
    /// Its physical address.
    pub pa: u64,
    /// 1, 2, 4 or 8 bytes.
    pub size: u8,
    /// The number of that size that was read.
    pub read: Option<u64>,
    /// The number of that size that was written.
    pub wrote: Option<u64>,
}

impl Model for AccessText {
    ghost use Rattle.std.specs.Prelude.{◌≡◌};
    ghost use Rattle.rv_fields.specs.declared.access.Accessed.{Accessed};
    ghost use Rattle.trace_fields.specs.Letters.{letter_of_kind, kind_of_letter};

    ghost Value = { Accessed };

    ghost view = { λ a. record { kind = kind_of_letter a.kind; va = a.va; pa = a.pa; size = a.size; read = a.read; wrote = a.wrote } };

    ghost inverse = { λ a. record { kind = letter_of_kind a.kind; va = a.va; pa = a.pa; size = a.size; read = a.read; wrote = a.wrote } };

    ghost invariant = { λ a. letter_of_kind (kind_of_letter a.kind) ≡ a.kind };
}

impl AccessText {
    ghost use Rattle.std.specs.Prelude.{◌≡◌};

    /// What a step did in memory, as a trace tells it.
    pub fn of(access: Accessed) -> AccessText
        ensures { result ≡ access }
    {
        AccessText {
            kind: letter_of_kind(access.kind),
            va: access.va,
            pa: access.pa,
            size: access.size,
            read: access.read,
            wrote: access.wrote,
        }
    }
}

/// The letter of the kind.
fn letter_of_kind(kind: AccessKind) -> u8
    ensures { result ≡ letter_of_kind kind }
{
    match kind {
        AccessKind::Load => b'l',
        AccessKind::Store => b's',
        AccessKind::Lr => b'r',
        AccessKind::Sc => b'c',
        AccessKind::Amo => b'a',
    }
}
