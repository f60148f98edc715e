use super::*;
use std::test::*;

/// The entries of address 0x1_0008 from the root at page number 0x8_0100 on, where the tables have the next page numbers.
/// Elsewhere there is no RAM.
#[derive(Clone, Copy)]
struct Path {
    root: PteAt,
    middle: PteAt,
    last: PteAt,
}

impl PteSource for Path {
    ghost use Rattle.std.specs.Prelude.{◌==◌, Some, None, if◌then◌else◌};
    ghost use Rattle.sv_walk.specs.Views.{pte_told};

    ghost entries = { λ path at. if at == 0x8010_0000 then pte_told path.root
        else if at == 0x8010_3000 then pte_told path.middle
        else if at == 0x8010_4080 then pte_told path.last else Some None };

    fn pte(&self, at: u64) -> PteAt {
        match at {
            0x8010_0000 => self.root,
            0x8010_3000 => self.middle,
            0x8010_4080 => self.last,
            _ => PteAt::Absent,
        }
    }
}

const SATP: u64 = 0x8000_0000_0008_0100;

const VA: u64 = 0x1_0008;

const USER: Rights = Rights {
    mode: Mode::U,
    sum: false,
    mxr: false,
};

/// Pointers down to this last entry.
fn down_to(last: PteAt) -> Path {
    Path {
        root: PteAt::Value(0x2004_0c01),
        middle: PteAt::Value(0x2004_1001),
        last,
    }
}

/// A walk through this last entry.
fn ended_by(last: u64, access: Access, rights: Rights) -> Walked {
    translate(&down_to(PteAt::Value(last)), SATP, VA, access, &rights)
}

/// The trail that ends with this last entry.
fn whole(last: u64) -> Trail {
    Trail {
        len: 3,
        at: [0x8010_0000, 0x8010_3000, 0x8010_4080, 0],
        pte: [0x2004_0c01, 0x2004_1001, last, 0],
    }
}

/// The trail that ends with this entry of the middle table.
fn upper(middle: u64) -> Trail {
    Trail {
        len: 2,
        at: [0x8010_0000, 0x8010_3000, 0, 0],
        pte: [0x2004_0c01, middle, 0, 0],
    }
}

#[test]
#[tactic(auto, unfolding(rv_fields::specs::Field::field_of))]
fn finds_a_page(rt: HostRuntime) {
    let path = down_to(PteAt::Value(0x2180_00d7));
    let found = Walked::Page {
        pa: 0x8600_0008,
        trail: whole(0x2180_00d7),
    };
    assert_eq!(rt; walk(&path, SATP, VA, Access::Load, &USER), found);
    assert_eq!(rt; translate(&path, SATP, VA, Access::Store, &USER), found);
}

#[test]
fn finds_a_large_page(rt: HostRuntime) {
    let mut path = down_to(PteAt::Unfixed);
    path.middle = PteAt::Value(0x2180_00d7);
    let found = Walked::Page {
        pa: 0x8601_0008,
        trail: upper(0x2180_00d7),
    };
    assert_eq!(rt; translate(&path, SATP, VA, Access::Load, &USER), found);
    // its page number is no multiple of 512
    path.middle = PteAt::Value(0x2180_04d7);
    let fault = Walked::Fault {
        cause: 13,
        trail: upper(0x2180_04d7),
    };
    assert_eq!(rt; translate(&path, SATP, VA, Access::Load, &USER), fault);
}

#[test]
fn names_an_unknown_entry(rt: HostRuntime) {
    let path = down_to(PteAt::Unfixed);
    let unknown = Walked::Unknown {
        at: 0x8010_4080,
        level: 0,
    };
    assert_eq!(rt; translate(&path, SATP, VA, Access::Fetch, &USER), unknown);
}

#[test]
fn faults_outside_ram(rt: HostRuntime) {
    let mut path = down_to(PteAt::Unfixed);
    path.middle = PteAt::Value(0x1);
    let fault = Walked::Fault {
        cause: 7,
        trail: upper(0x1),
    };
    assert_eq!(rt; translate(&path, SATP, VA, Access::Store, &USER), fault);
}

#[test]
fn faults_without_a_right(rt: HostRuntime) {
    // V, R, W, U and D, and no A
    let fault = Walked::Fault {
        cause: 13,
        trail: whole(0x2180_0097),
    };
    assert_eq!(rt; ended_by(0x2180_0097, Access::Load, USER), fault);
    // V, R, W, U and A, and no D
    let fault = Walked::Fault {
        cause: 15,
        trail: whole(0x2180_0057),
    };
    assert_eq!(rt; ended_by(0x2180_0057, Access::Store, USER), fault);
    // a user page
    let fault = Walked::Fault {
        cause: 12,
        trail: whole(0x2180_00df),
    };
    let supervisor = Rights {
        mode: Mode::S,
        sum: true,
        mxr: true,
    };
    assert_eq!(rt; ended_by(0x2180_00df, Access::Fetch, supervisor), fault);
}

#[test]
fn reads_no_entry(rt: HostRuntime) {
    let path = down_to(PteAt::Unfixed);
    let fault = Walked::Fault {
        cause: 13,
        trail: Trail::new(),
    };
    assert_eq!(rt; translate(&path, SATP, 1 << 38, Access::Load, &USER), fault);
    let same = Walked::Page {
        pa: 1 << 38,
        trail: Trail::new(),
    };
    assert_eq!(rt; translate(&path, 0, 1 << 38, Access::Load, &USER), same);
}

#[test]
fn tells_causes(rt: HostRuntime) {
    assert_eq!(rt; page_fault(Access::Store), 15);
    assert_eq!(rt; access_fault(Access::Store), 7);
    assert_eq!(rt; misaligned(Access::Store), 6);
}
