// What a merge rule makes of an open point.
ghost use Rattle.std.specs.Prelude.{◌≡◌, ◌<◌, length};
ghost use Rattle.levels.specs.Tris.{tri_kind};
ghost use Rattle.model.specs.Core.{places};
ghost use Rattle.record.specs.Record.{is_marked};
ghost use Rattle.design.specs.Views.{core};
ghost use Rattle.explore.specs.Memory.{stretch};
ghost use Rattle.explore.specs.Plans.{Planned, PlannedKnown};

use crate::held::Held;
use crate::plan::Plan;
use design::Design;
use levels::{Level, Tri};
use rules::Rule;
use successors::{covers, restore};

// Whether the mark net may be 1.
fn is_marked(design: &Design, state: &[Tri]) -> bool
    requires { length state.now ≡ places (core design.now) }
    ensures { result ≡ is_marked tri_kind (core design.now) state.now }
{
    state[design.mark() as usize].allows(true)
}

impl Held<'_> {
    // Copies the state of an open point.
    pub(crate) fn copy_state(&self, slot: usize, state: &mut [Tri])
        requires slot { slot < self.now.exploration.now.open_count }
        requires state { length state.old ≡ self.now.exploration.now.places }
        ensures { state.new ≡ stretch self.now.exploration.now.places self.now.opened.now slot }
    {
        let places = self.exploration.places;
        let start = slot * places;
        state.copy_from_slice(&self.opened[start..start + places]);
    }

    // What becomes of an open point with this key, whose state is `current`. A merged state is left in `current`.
    pub(crate) fn plan<R: Rule>(&self, rule: &R, key: u16, current: &mut [Tri]) -> Plan
        requires { length current.old ≡ places (core self.now.design.now) }
        ensures { Planned (core self.now.design.now) (R.Rule.meaning rule.now) self.now.exploration.now self.now.kept.now key current.old result current.new }
    {
        if key % 2 == 1 {
            return Plan::Halt;
        }
        let marked = is_marked(self.design, current);
        let Some(entry) = self.exploration.look_up(key) else {
            return if rule.watch(key, 0, marked) {
                Plan::Add
            } else {
                Plan::Pass
            };
        };
        self.plan_known(rule, key, entry, marked, current)
    }

    // What becomes of an open point whose key an entry has.
    fn plan_known<R: Rule>(
        &self,
        rule: &R,
        key: u16,
        entry: usize,
        marked: bool,
        current: &mut [Tri],
    ) -> Plan
        requires current { length current.old ≡ places (core self.now.design.now) }
        requires entry { entry < self.now.exploration.now.entry_count }
        ensures { PlannedKnown (core self.now.design.now) (R.Rule.meaning rule.now) self.now.exploration.now self.now.kept.now key entry marked current.old result current.new }
    {
        let known = self.exploration.entry(entry);
        if !rule.watch(key, known.count, marked) {
            return Plan::Pass;
        }
        let first = entry * self.exploration.places;
        let state = &self.kept[first..first + self.exploration.places];
        if covers(state, current) {
            return Plan::Cut { to: known.point };
        }
        rule.merge(state, current, self.design.nets().len(), known.count);
        let _ = restore(self.design, key, current);
        Plan::Replace {
            entry,
            count: known.count + 1,
        }
    }
}
