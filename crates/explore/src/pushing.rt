// The successors of a point, written behind the points and the open points in use.
ghost use Rattle.std.specs.Prelude.{◌≡◌, ◌+◌, ◌*◌, ◌<◌, ◌≤◌, [], ◌∷◌, map, slice_index};
ghost use Rattle.levels.specs.Tris.{tri_kind};
ghost use Rattle.record.specs.Record.{successor_keys, successor_point, after_key, waiting_from};
ghost use Rattle.design.specs.Views.{core};
ghost use Rattle.explore.specs.Memory.{Adds, HasRoom};
ghost use Rattle.explore.specs.Steps.{Pushed};
ghost use Rattle.explore.specs.Holding.{SameHeld, Edged};

use crate::held::{Edge, Held};
use record::{Fate, Origin, Point};
use successors::successor;

impl Held<'_> {
    // Writes the successor of a choice as one more open point, which comes from point `from`.
    fn push_successor(&mut self, edge: &Edge, choice: u32, from: u16)
        requires edge { Edged (core self.old.design.now) edge.now }
        requires among { choice < edge.now.count }
        requires room { HasRoom 1 self.old.exploration.now }
        ensures adds { Adds 1 self.old.exploration.now self.new.exploration.now }
        ensures pushed { Pushed self.old.exploration.now.places self.old.points.now self.new.points.now self.old.opened.now self.new.opened.now
            self.old.exploration.now.numbers self.new.exploration.now.numbers
            self.old.exploration.now.point_count self.old.exploration.now.open_count 1
            (successor_point tri_kind (core self.old.design.now) from edge.now.current.now (slice_index (successor_keys tri_kind (core self.old.design.now) edge.now.current.now) choice) ∷ [])
            (record { number = self.old.exploration.now.point_count; state = after_key tri_kind (core self.old.design.now) edge.now.current.now (slice_index (successor_keys tri_kind (core self.old.design.now) edge.now.current.now) choice) } ∷ []) }
        ensures kept { self.new.kept.now ≡ self.old.kept.now }
        ensures same { SameHeld self.old self.new }
    {
        let design = self.design;
        let places = self.exploration.places;
        let start = self.exploration.open_count * places;
        let state = &mut self.opened[start..start + places];
        let Ok((key, charge)) = successor(design, edge.current, edge.next, choice, state) else {
            unreachable()
        };
        let point = self.exploration.point_count;
        self.points[point] = Point {
            origin: Origin::From { point: from },
            key,
            charge,
            fate: Fate::Open,
        };
        self.exploration.add_open();
    }

    // Writes all successors of a state as open points.
    pub(crate) fn push_successors(&mut self, edge: &Edge, from: u16)
        requires edge { Edged (core self.old.design.now) edge.now }
        requires room { HasRoom edge.now.count self.old.exploration.now }
        ensures adds { Adds edge.now.count self.old.exploration.now self.new.exploration.now }
        ensures pushed { Pushed self.old.exploration.now.places self.old.points.now self.new.points.now self.old.opened.now self.new.opened.now
            self.old.exploration.now.numbers self.new.exploration.now.numbers
            self.old.exploration.now.point_count self.old.exploration.now.open_count edge.now.count
            (map (successor_point tri_kind (core self.old.design.now) from edge.now.current.now) (successor_keys tri_kind (core self.old.design.now) edge.now.current.now))
            (waiting_from tri_kind (core self.old.design.now) self.old.exploration.now.point_count edge.now.current.now) }
        ensures kept { self.new.kept.now ≡ self.old.kept.now }
        ensures same { SameHeld self.old self.new }
    {
        for choice in 0..edge.count {
            self.push_successor(edge, choice, from);
        }
    }
}
