//! Accesses to memory.

ghost use Rattle.std.specs.Prelude.{◌≡◌, ◌%◌, ◌*◌, ◌^◌, ◌<◌, IsTrue, IsSome, Some, None, option_map};
ghost use Rattle.rv_fields.specs.Meaning.{sign_extended};
ghost use Rattle.rv_fields.specs.Memory.{IsSize, told, in_ram, granule, after_access};
ghost use Rattle.rv_fields.specs.Step as steps;
ghost use Rattle.sv_walk.specs.Views.{trail_seen, rights_seen, walked_seen};
ghost use Rattle.rv_step.specs.Views.{hart_seen, outcome_seen};
ghost use Rattle.rv_step.specs.Frames.{OutcomeLeaves, access_of, HasRoomIfTold};
ghost use Rattle.rv_step.specs.Aims.{target_seen, aim_seen, IsTarget, IsAim};

use crate::bus::Bus;
use crate::hart::Hart;
use crate::outcome::{Done, Outcome, traps};
use rv_alu::amo;
use rv_fields::{Access, AccessKind, Accessed, Extension, Ins, Mode, Reserved};
use sv_walk::{Rights, Trail, Walked, access_fault, misaligned, translate};

/// An instruction that accesses memory, with the value of rs2: so many bytes at a virtual address.
#[derive(Clone, Copy)]
pub(crate) struct Target {
    pub ins: Ins,
    pub rs2: u64,
    pub kind: AccessKind,
    pub size: u8,
    pub extended: Extension,
    pub va: u64,
}

/// A target with its physical address, and the page table entries by which it is translated.
#[derive(Clone, Copy)]
pub(crate) struct Aim {
    pub target: Target,
    pub pa: u64,
    pub trail: Trail,
}

impl Hart {
    /// The hart's rights in a mode.
    pub(crate) fn rights(&self, mode: Mode) -> Rights
        ensures { rights_seen result ≡ steps.rights_of (hart_seen self.now) mode }
    {
        Rights {
            mode,
            sum: self.csrs.sum(),
            mxr: self.csrs.mxr(),
        }
    }

    /// Accesses memory. A misaligned address isn't translated.
    pub(crate) fn access<B: Bus>(&mut self, bus: &mut B, target: &Target) -> Outcome
        requires target { IsTarget target.now }
        requires told { IsSome (steps.access (B.seen bus.old) (hart_seen self.old) (target_seen target.now)) }
        requires room { HasRoomIfTold (B.has_room bus.old) (steps.access (B.seen bus.old) (hart_seen self.old) (target_seen target.now)) }
        ensures outcome { steps.access (B.seen bus.old) (hart_seen self.old) (target_seen target.now) ≡ Some (outcome_seen self.new result) }
        ensures bus { B.seen bus.new ≡ after_access self.old.number (access_of result) (B.seen bus.old) }
        ensures frame { OutcomeLeaves self.old self.new result }
    {
        let right = right_of(target.kind);
        if target.va % u64::from(target.size) == 0 {
            self.access_aligned(bus, target, right)
        } else {
            traps(misaligned(right), target.va)
        }
    }

    /// Translates the address, and accesses memory there.
    fn access_aligned<B: Bus>(&mut self, bus: &mut B, target: &Target, right: Access) -> Outcome
        requires target { IsTarget target.now }
        requires right { right ≡ steps.right_of target.now.kind }
        requires aligned { target.now.va % target.now.size ≡ 0 }
        requires told { IsSome (steps.access (B.seen bus.old) (hart_seen self.old) (target_seen target.now)) }
        requires room { HasRoomIfTold (B.has_room bus.old) (steps.access (B.seen bus.old) (hart_seen self.old) (target_seen target.now)) }
        ensures outcome { steps.access (B.seen bus.old) (hart_seen self.old) (target_seen target.now) ≡ Some (outcome_seen self.new result) }
        ensures bus { B.seen bus.new ≡ after_access self.old.number (access_of result) (B.seen bus.old) }
        ensures frame { OutcomeLeaves self.old self.new result }
    {
        let rights = self.rights(self.csrs.data_mode(self.mode));
        match translate(bus, self.csrs.satp(), target.va, right, &rights) {
            Walked::Page { pa, trail } => self.perform(
                bus,
                &Aim {
                    target: *target,
                    pa,
                    trail,
                },
            ),
            Walked::Fault { cause, trail } => Outcome::Raises {
                cause,
                tval: target.va,
                trail,
            },
            Walked::Unknown { .. } => unreachable!("an access is told"),
        }
    }

    /// What the access does, by its kind.
    fn perform<B: Bus>(&mut self, bus: &mut B, aim: &Aim) -> Outcome
        requires aim { IsAim aim.now }
        requires told { IsSome (steps.performed aim.now.target.kind (B.seen bus.old) (hart_seen self.old) (aim_seen aim.now)) }
        requires room { HasRoomIfTold (B.has_room bus.old) (steps.performed aim.now.target.kind (B.seen bus.old) (hart_seen self.old) (aim_seen aim.now)) }
        ensures outcome { steps.performed aim.now.target.kind (B.seen bus.old) (hart_seen self.old) (aim_seen aim.now) ≡ Some (outcome_seen self.new result) }
        ensures bus { B.seen bus.new ≡ after_access self.old.number (access_of result) (B.seen bus.old) }
        ensures frame { OutcomeLeaves self.old self.new result }
    {
        match aim.target.kind {
            AccessKind::Load => self.load(bus, aim),
            AccessKind::Lr => self.load_reserved(bus, aim),
            AccessKind::Amo => self.update(bus, aim),
            AccessKind::Store => self.store(bus, aim),
            AccessKind::Sc => self.store_conditional(bus, aim),
        }
    }

    fn load<B: Bus>(&self, bus: &B, aim: &Aim) -> Outcome
        requires aim { IsAim aim.now }
        requires kind { aim.now.target.kind ≡ AccessKind.Load }
        requires told { IsSome (told (B.seen bus.now).byte aim.now.pa aim.now.target.size) }
        ensures outcome { option_map (steps.loaded (hart_seen self.now) (aim_seen aim.now)) (told (B.seen bus.now).byte aim.now.pa aim.now.target.size)
            ≡ Some (outcome_seen self.now result) }
        ensures access { after_access self.now.number (access_of result) (B.seen bus.now) ≡ B.seen bus.now }
    {
        match bus.load(aim.pa, aim.target.size) {
            None => aim.lacks_ram(),
            Some(number) => self.accesses_done(
                aim,
                Some(aim.extended(number)),
                Some(aim.read(number)),
            ),
        }
    }

    /// LR leaves a reservation, and its link.
    fn load_reserved<B: Bus>(&mut self, bus: &mut B, aim: &Aim) -> Outcome
        requires aim { IsAim aim.now }
        requires kind { aim.now.target.kind ≡ AccessKind.Lr }
        requires told { IsSome (told (B.seen bus.old).byte aim.now.pa aim.now.target.size) }
        requires room { HasRoomIfTold (B.has_room bus.old) (steps.performed AccessKind.Lr (B.seen bus.old) (hart_seen self.old) (aim_seen aim.now)) }
        ensures outcome { steps.performed AccessKind.Lr (B.seen bus.old) (hart_seen self.old) (aim_seen aim.now) ≡ Some (outcome_seen self.new result) }
        ensures bus { B.seen bus.new ≡ after_access self.old.number (access_of result) (B.seen bus.old) }
        ensures frame { OutcomeLeaves self.old self.new result }
    {
        let Some(number) = bus.load(aim.pa, aim.target.size) else {
            return aim.lacks_ram();
        };
        bus.link(self.number, aim.pa);
        self.reserved = Some(Reserved {
            pa: aim.pa,
            size: aim.target.size,
        });
        self.accesses_done(aim, Some(aim.extended(number)), Some(aim.read(number)))
    }

    /// An AMO writes what it computes, and gives what stood there before.
    fn update<B: Bus>(&self, bus: &mut B, aim: &Aim) -> Outcome
        requires aim { IsAim aim.now }
        requires kind { aim.now.target.kind ≡ AccessKind.Amo }
        requires told { IsSome (told (B.seen bus.old).byte aim.now.pa aim.now.target.size) }
        requires room { HasRoomIfTold (B.has_room bus.old) (steps.performed AccessKind.Amo (B.seen bus.old) (hart_seen self.now) (aim_seen aim.now)) }
        ensures outcome { steps.performed AccessKind.Amo (B.seen bus.old) (hart_seen self.now) (aim_seen aim.now) ≡ Some (outcome_seen self.now result) }
        ensures bus { B.seen bus.new ≡ after_access self.now.number (access_of result) (B.seen bus.old) }
    {
        let Aim { target, pa, .. } = *aim;
        let Some(old) = bus.load(pa, target.size) else {
            return aim.lacks_ram();
        };
        let new = amo(target.ins, old, target.rs2);
        bus.store(self.number, pa, target.size, new);
        self.accesses_done(
            aim,
            Some(aim.extended(old)),
            Some(aim.accessed(Some(old), Some(new))),
        )
    }

    fn store<B: Bus>(&self, bus: &mut B, aim: &Aim) -> Outcome
        requires aim { IsAim aim.now }
        requires kind { aim.now.target.kind ≡ AccessKind.Store }
        requires room { HasRoomIfTold (B.has_room bus.old) (steps.performed AccessKind.Store (B.seen bus.old) (hart_seen self.now) (aim_seen aim.now)) }
        ensures outcome { steps.performed AccessKind.Store (B.seen bus.old) (hart_seen self.now) (aim_seen aim.now) ≡ Some (outcome_seen self.now result) }
        ensures bus { B.seen bus.new ≡ after_access self.now.number (access_of result) (B.seen bus.old) }
    {
        let value = aim.stored();
        if bus.store(self.number, aim.pa, aim.target.size, value) {
            self.accesses_done(aim, None, Some(aim.wrote(value)))
        } else {
            aim.lacks_ram()
        }
    }

    /// SC stores and gives 0 where it succeeds; else it gives 1 and accesses nothing. It ends the reservation in both
    /// cases.
    fn store_conditional<B: Bus>(&mut self, bus: &mut B, aim: &Aim) -> Outcome
        requires aim { IsAim aim.now }
        requires kind { aim.now.target.kind ≡ AccessKind.Sc }
        requires told { IsSome (steps.performed AccessKind.Sc (B.seen bus.old) (hart_seen self.old) (aim_seen aim.now)) }
        requires room { HasRoomIfTold (B.has_room bus.old) (steps.performed AccessKind.Sc (B.seen bus.old) (hart_seen self.old) (aim_seen aim.now)) }
        ensures outcome { steps.performed AccessKind.Sc (B.seen bus.old) (hart_seen self.old) (aim_seen aim.now) ≡ Some (outcome_seen self.new result) }
        ensures bus { B.seen bus.new ≡ after_access self.old.number (access_of result) (B.seen bus.old) }
        ensures frame { OutcomeLeaves self.old self.new result }
    {
        let value = aim.stored();
        if !self.succeeds(bus, aim) {
            self.reserved = None;
            return self.accesses_done(aim, Some(1), None);
        }
        if bus.store(self.number, aim.pa, aim.target.size, value) {
            self.reserved = None;
            self.accesses_done(aim, Some(0), Some(aim.wrote(value)))
        } else {
            aim.lacks_ram()
        }
    }

    /// Whether an SC succeeds: the reservation has its address and size, and the hart's link to the granule stands.
    fn succeeds<B: Bus>(&self, bus: &B, aim: &Aim) -> bool
        requires { IsSome (steps.succeeds (B.seen bus.now).link self.now.number self.now.reserved (aim_seen aim.now)) }
        ensures { steps.succeeds (B.seen bus.now).link self.now.number self.now.reserved (aim_seen aim.now) ≡ Some result }
    {
        match self.reserved {
            Some(reserved) if reserved.pa == aim.pa && reserved.size == aim.target.size => {
                bus.linked(self.number, aim.pa)
            }
            _ => false,
        }
    }

    /// It retires behind its access.
    fn accesses_done(&self, aim: &Aim, value: Option<u64>, access: Option<Accessed>) -> Outcome
        ensures outcome { outcome_seen self.now result ≡ steps.accesses_done (hart_seen self.now) (aim_seen aim.now) value self.now.reserved access }
        ensures access { access_of result ≡ access }
    {
        Outcome::Retires(Done {
            value,
            next: self.behind(),
            access,
            trail: aim.trail,
        })
    }
}

impl Aim {
    /// There is no RAM at the physical address.
    fn lacks_ram(&self) -> Outcome
        ensures outcome { (h : Hart) → outcome_seen h result ≡ steps.lacks_ram (aim_seen self.now) }
        ensures access { access_of result ≡ None }
    {
        Outcome::Raises {
            cause: access_fault(right_of(self.target.kind)),
            tval: self.target.va,
            trail: self.trail,
        }
    }

    fn read(&self, number: u64) -> Accessed
        ensures { result ≡ steps.accessed (aim_seen self.now) (Some number) None }
    {
        self.accessed(Some(number), None)
    }

    fn wrote(&self, value: u64) -> Accessed
        ensures { result ≡ steps.accessed (aim_seen self.now) None (Some value) }
    {
        self.accessed(None, Some(value))
    }

    fn accessed(&self, read: Option<u64>, wrote: Option<u64>) -> Accessed
        ensures { result ≡ steps.accessed (aim_seen self.now) read wrote }
    {
        let Target { kind, size, va, .. } = self.target;
        Accessed {
            kind,
            va,
            pa: self.pa,
            size,
            read,
            wrote,
        }
    }

    /// The number that is read, as rd gets it.
    fn extended(&self, number: u64) -> u64
        requires size { IsSize self.now.target.size }
        requires small { number < 2 ^ (8 * self.now.target.size) }
        ensures { result ≡ steps.extended_by self.now.target.extended self.now.target.size number }
    {
        match self.target.extended {
            Extension::Sign => sign_extended(number, self.target.size),
            Extension::Zeros => number,
        }
    }

    /// What is left of rs2 in the bytes that are written.
    #[tactic(auto, using(std::proofs::lemmas::Nat::one_shl))]
    fn stored(&self) -> u64
        requires { IsSize self.now.target.size }
        ensures { result ≡ steps.low_part self.now.target.size self.now.target.rs2 }
    {
        let Target { size, rs2, .. } = self.target;
        if size == 8 {
            rs2
        } else {
            rs2 % (1 << (8 * u32::from(size)))
        }
    }
}

/// LR counts as a load, SC and AMO as stores.
fn right_of(kind: AccessKind) -> Access
    ensures { result ≡ steps.right_of kind }
{
    match kind {
        AccessKind::Load | AccessKind::Lr => Access::Load,
        AccessKind::Store | AccessKind::Sc | AccessKind::Amo => Access::Store,
    }
}

/// The number of so many bytes, extended with its sign.
fn sign_extended(number: u64, size: u8) -> u64
    requires size { IsSize size }
    requires small { number < 2 ^ (8 * size) }
    ensures { result ≡ sign_extended (8 * size) number }
{
    let signed = match size {
        1 => i64::from((number as u8).cast_signed()),
        2 => i64::from((number as u16).cast_signed()),
        4 => i64::from((number as u32).cast_signed()),
        _ => number.cast_signed(),
    };
    signed.cast_unsigned()
}
