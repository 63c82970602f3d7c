// One open point taken, the last: it is closed, or walked if there is room.
ghost use Rattle.std.specs.Prelude.{◌≡◌, ◌+◌, ◌<◌, ◌≤◌, length, None};
ghost use Rattle.std.specs.Result.{result_err};
ghost use Rattle.model.specs.Core.{places};
ghost use Rattle.record.specs.Record.{marked_as, walk as walked};
ghost use Rattle.design.specs.Views.{core};
ghost use Rattle.explore.specs.Parts.{kept_entries};
ghost use Rattle.explore.specs.Plans.{Within, planned_entries};
ghost use Rattle.explore.specs.Moves.{Popped, WalkedOn, asked, Steps, TakesLast};
ghost use Rattle.explore.specs.Holding.{held_memory, SameHeld, Edged};

use crate::exploration::Exploration;
use crate::held::{Edge, Held};
use crate::plan::Plan;
use bundle::{Fault, Refusal, ask_at};
use levels::Tri;
use record::Fate;
use rules::Rule;
use successors::advance;

impl Exploration {
    // Takes the last open point from the open points.
    fn pop(&mut self)
        requires { 0 < self.old.open_count }
        ensures { Popped self.old self.new }
    {
        self.open_count -= 1;
    }

    // Asks for room for what the last open point adds: an entry, points, open slots.
    fn ask_room(&self, plan: Plan, number: u16, count: u32) -> Result<(), Refusal>
        requires some { 0 < self.now.open_count }
        requires few { count ≤ 65536 }
        ensures { result_err result ≡ asked self.now plan number count }
    {
        let place = number as usize;
        let count = count as usize;
        ask_at(
            plan.entries_after(self.entry_count) <= self.entry_room(),
            Fault::NoEntry,
            place,
        )?;
        ask_at(
            self.point_count + count <= self.point_room(),
            Fault::NoPoint,
            place,
        )?;
        ask_at(
            self.open_count - 1 + count <= self.open_room(),
            Fault::NoSlot,
            place,
        )
    }
}

impl Held<'_> {
    // Gives the last open point its fate, and takes it from the open points.
    // Why apart: that a point is open is asked of four functions, from `take` to here, where it ends; after which it may be false.
    fn close(&mut self, number: u16, fate: Fate)
        requires some { 0 < self.old.exploration.now.open_count }
        requires number { number < length self.old.points.now }
        ensures marked { self.new.points.now ≡ marked_as fate number self.old.points.now }
        ensures popped { Popped self.old.exploration.now self.new.exploration.now }
        ensures opened { self.new.opened.now ≡ self.old.opened.now }
        ensures kept { self.new.kept.now ≡ self.old.kept.now }
        ensures same { SameHeld self.old self.new }
    {
        self.points[number as usize].fate = fate;
        self.exploration.pop();
    }

    // Walks the last open point from a state, for which there is room.
    fn walk_on(&mut self, edge: &Edge, plan: Plan, number: u16, key: u16)
        requires some { 0 < self.old.exploration.now.open_count }
        requires edge { Edged (core self.old.design.now) edge.now }
        requires plan { Within self.old.exploration.now plan }
        requires number { number < self.old.exploration.now.point_count }
        requires room { asked self.old.exploration.now plan number edge.now.count ≡ None }
        ensures walked { WalkedOn (core self.old.design.now) plan number key edge.now.current.now edge.now.count
            (held_memory self.old) (held_memory self.new) }
        ensures same { SameHeld self.old self.new }
    {
        self.close(number, Fate::Walked);
        let kept = &mut *self.kept;
        self.exploration.keep(plan, key, number, edge.current, kept);
        self.push_successors(edge, number);
    }

    // Walks the last open point from a state, if there is room for what it adds.
    fn step(
        &mut self,
        plan: Plan,
        number: u16,
        key: u16,
        current: &[Tri],
        room: &mut [Tri],
    ) -> Result<(), Refusal>
        requires some { 0 < self.old.exploration.now.open_count }
        requires plan { Within self.old.exploration.now plan }
        requires number { number < self.old.exploration.now.point_count }
        requires current { length current.now ≡ places (core self.old.design.now) }
        requires room { places (core self.old.design.now) + 1024 ≤ length room.old }
        ensures steps { Steps (core self.old.design.now) number
            (walked current.now (planned_entries (core self.old.design.now) plan key number current.now
            (kept_entries self.old.exploration.now.places self.old.exploration.now.entries self.old.kept.now self.old.exploration.now.entry_count)))
            (held_memory self.old) (held_memory self.new) result }
        ensures same { SameHeld self.old self.new }
    {
        let places = self.exploration.places;
        let (next, leaves) = room.split_at_mut(places);
        let count = advance(self.design, current, next, leaves)?;
        self.exploration.ask_room(plan, number, count)?;
        let edge = Edge {
            current,
            next,
            count,
        };
        self.walk_on(&edge, plan, number, key);
        Ok(())
    }

    // Takes the last open point, through scratch. If it is refused, nothing but scratch has changed.
    pub(crate) fn take<R: Rule>(&mut self, rule: &R, scratch: &mut [Tri]) -> Result<(), Refusal>
        requires some { 0 < self.old.exploration.now.open_count }
        requires scratch { length scratch.old ≡ self.old.exploration.now.scratch_length }
        ensures takes { TakesLast (core self.old.design.now) (R.Rule.meaning rule.now) (held_memory self.old) (held_memory self.new) result }
        ensures same { SameHeld self.old self.new }
    {
        let places = self.exploration.places;
        let slot = self.exploration.open_count - 1;
        let number = self.exploration.numbers[slot];
        let key = self.points[number as usize].key;
        let (current, room) = scratch.split_at_mut(places);
        self.copy_state(slot, current);
        let plan = self.plan(rule, key, current);
        match plan {
            Plan::Halt => {
                self.close(number, Fate::Halted);
                Ok(())
            }
            Plan::Cut { to } => {
                self.close(number, Fate::Cut { to });
                Ok(())
            }
            _ => self.step(plan, number, key, current, room),
        }
    }
}
