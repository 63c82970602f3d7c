// The key table: an exploration's entries, looked up by their keys.
ghost use Rattle.std.specs.Prelude.{◌≡◌, ◌<◌, ◌==◌, List, position, slice_index_or};
ghost use Rattle.levels.specs.declared.Tri.{Tri};
ghost use Rattle.levels.specs.Tris.{tri_kind};
ghost use Rattle.model.specs.Core.{Core};
ghost use Rattle.record.specs.Record.{look_up};
ghost use Rattle.explore.specs.Memory.{no_entry};
ghost use Rattle.explore.specs.Parts.{kept_entries};

use crate::exploration::{Entry, Exploration};

// The place of the first entry with a key.
fn place_of(entries: &[Entry], key: u16) -> Option<usize>
    ensures { result ≡ position (λ e. e.key == key) entries.now }
{
    entries.iter().position(|entry| entry.key == key)
}

impl Exploration {
    // The entry at a place in use.
    pub(crate) fn entry(&self, place: usize) -> Entry
        requires { place < self.now.entry_count }
        ensures { result ≡ slice_index_or self.now.entries place no_entry }
    {
        self.entries[place]
    }

    // The place of the entry with a key.
    pub(crate) fn look_up(&self, key: u16) -> Option<usize>
        ensures { (d : Core) (kept : List Tri) → result ≡ look_up tri_kind d key 0 (kept_entries self.now.places self.now.entries kept self.now.entry_count) }
    {
        place_of(&self.entries[..self.entry_count], key)
    }
}
