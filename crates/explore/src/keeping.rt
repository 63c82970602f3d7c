// The entry of a plan, written into the key table and the kept states.
ghost use Rattle.std.specs.Prelude.{◌≡◌, ◌+◌, ◌*◌, ◌≤◌, ◌++◌, length, take, drop};
ghost use Rattle.model.specs.Core.{Core};
ghost use Rattle.explore.specs.Steps.{entries_after, replaced_by, InUse};
ghost use Rattle.explore.specs.Moves.{Entered};

use crate::exploration::{Entry, Exploration};
use crate::plan::Plan;
use levels::Tri;

// Writes a state into its stretch of the kept states.
fn keep_state(place: usize, state: &[Tri], kept: &mut [Tri])
    requires { place * length state.now + length state.now ≤ length kept.old }
    ensures { kept.new ≡ take (place * length state.now) kept.old
        ++ (state.now ++ drop (length state.now) (drop (place * length state.now) kept.old)) }
{
    let start = place * state.len();
    kept[start..start + state.len()].copy_from_slice(state);
}

impl Exploration {
    // Writes the entry of a plan for a point with this key and state.
    pub(crate) fn keep(&mut self, plan: Plan, key: u16, point: u16, state: &[Tri], kept: &mut [Tri])
        requires used { InUse plan self.old.entry_count }
        requires few { entries_after plan self.old.entry_count ≤ 256 }
        requires inside { entries_after plan self.old.entry_count * self.old.places ≤ self.old.kept_length }
        requires replaced { replaced_by plan + self.old.open_count ≤ self.old.point_count }
        requires state { length state.now ≡ self.old.places }
        requires kept { length kept.old ≡ self.old.kept_length }
        ensures { (d : Core) → Entered d plan key point state.now self.old self.new kept.old kept.new }
    {
        match plan {
            Plan::Add => {
                let place = self.entry_count;
                keep_state(place, state, kept);
                self.entries[place] = Entry {
                    key,
                    point,
                    count: 0,
                };
                self.entry_count = place + 1;
            }
            Plan::Replace { entry, count } => {
                keep_state(entry, state, kept);
                self.entries[entry] = Entry { key, point, count };
            }
            _ => {}
        }
    }
}
