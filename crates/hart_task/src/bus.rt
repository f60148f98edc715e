ghost use Rattle.std.specs.Prelude.{◌≡◌, IsTrue};
ghost use Rattle.rv_fields.specs.Memory.{in_ram};

use rv_fields::in_ram;
use rv_step::{Bus, PteAt, PteSource};

/// The link of a hart to the 64 bytes of this number.
#[derive(Clone, Copy)]
pub(crate) struct Link {
    pub hart: u8,
    pub granule: u64,
}

/// Memory of which no more than one word is known, which stands in RAM, and one link. No byte of it changes: it has room
/// where there is no RAM alone, for one link.
#[derive(Drop)]
pub(crate) struct OneWord {
    pub at: u64,
    pub word: u32,
    pub link: Option<Link>,
    ghost in_ram: { IsTrue (in_ram at 4) },
}

impl PteSource for OneWord {
    ghost use Rattle.rv_fields.specs.Sv39.{entries_in};
    ghost use Rattle.hart_task.specs.Bus.{word_seen};

    ghost entries = { λ b. entries_in (word_seen b.at b.word).byte };

    fn pte(&self, at: u64) -> PteAt {
        if in_ram(at, 8) {
            PteAt::Unfixed
        } else {
            PteAt::Absent
        }
    }
}

impl Bus for OneWord {
    ghost use Rattle.std.specs.Prelude.{refl};
    ghost use Rattle.hart_task.specs.Bus.{word_seen, link_seen, HasRoomForLink};

    ghost seen = { λ b. record { byte = (word_seen b.at b.word).byte; link = link_seen b.link } };

    ghost has_room = { λ b. λ pa. HasRoomForLink b.link pa };

    fn fetch(&self, pa: u64) -> Option<u32> {
        (pa == self.at).then_some(self.word)
    }

    fn load(&self, pa: u64, size: u8) -> Option<u64> {
        if !in_ram(pa, u64::from(size)) {
            return None;
        }
        let behind = u64::from(self.word) >> (8 * (pa - self.at));
        match size {
            1 => Some(behind % 0x100),
            2 => Some(behind % 0x1_0000),
            _ => Some(behind),
        }
    }

    fn store(&mut self, _hart: u8, _pa: u64, _size: u8, _value: u64) -> bool {
        false
    }

    fn link(&mut self, hart: u8, pa: u64) {
        self.link = Some(Link {
            hart,
            granule: pa / 64,
        });
    }

    fn linked(&self, _hart: u8, _pa: u64) -> bool {
        self.link.is_some()
    }

    ghost tells_entries = { λ b. refl };
}
