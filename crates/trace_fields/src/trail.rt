ghost use Rattle.std.specs.Prelude.{◌≡◌, ◌++◌, ◌∷◌, ◌<◌, [], length, map, Some, None, if◌then◌else◌, nat_lt};
ghost use Rattle.trace_fields.specs.Bounds.{most_entries};
ghost use Rattle.trace_fields.specs.Trails.{entry_seen};

use crate::entry::EntryText;
use std::marker::Model;

/// No trail has more entries.
const MOST: usize = 4;

/// What stands behind a trail's entries.
const NOTHING: EntryText = EntryText { at: 0, pte: 0 };

/// The page table entries by which an address is translated, from the root down: four at most.
#[derive(Clone, Copy, Debug, PartialEq, Eq)]
pub struct TrailText {
    len: usize,
    entries: [EntryText; MOST],
}

impl Model for TrailText {
    ghost use Rattle.std.specs.Prelude.{◌≡◌, ◌≤◌, List, take, length, map};
    ghost use Rattle.rv_fields.specs.Effect.{Entry};
    ghost use Rattle.trace_fields.specs.Bounds.{most_entries};
    ghost use Rattle.trace_fields.specs.Trails.{entry_seen, padded_trail};

    ghost Value = { List Entry };

    ghost view = { λ t. map entry_seen (take t.len t.entries) };

    ghost inverse = { λ entries. record { len = length entries; entries = padded_trail entries } };

    ghost invariant = { λ t. (t.len ≤ most_entries) × (length (map entry_seen (take t.len t.entries)) ≡ t.len) × (padded_trail (map entry_seen (take t.len t.entries)) ≡ t.entries) };
}

impl TrailText {
    /// The trail of an address that isn't translated.
    pub fn new() -> TrailText
        ensures { result ≡ [] }
    {
        TrailText {
            len: 0,
            entries: [NOTHING; MOST],
        }
    }

    /// The trail with one entry more at its end; none where it has four.
    pub fn with_entry(mut self, entry: EntryText) -> Option<TrailText>
        ensures { result ≡ (if nat_lt (length self) most_entries then Some (self ++ entry_seen entry ∷ []) else None) }
    {
        if self.len == MOST {
            return None;
        }
        self.entries[self.len] = entry;
        self.len += 1;
        Some(self)
    }

    pub fn entries(&self) -> &[EntryText]
        ensures { map entry_seen result.now ≡ self.now }
    {
        &self.entries[..self.len]
    }
}
