// Theorems on what an exploration records. Each function here promises one; it computes nothing, and a crate that calls it may
// rely on the theorem.
ghost use Rattle.levels.specs.Bits.{bit_kind};
ghost use Rattle.levels.specs.Tris.{tri_kind};
ghost use Rattle.record.specs.Record.{keys, covers_all};
ghost use Rattle.record.specs.Split.{PilotsAreSplit};
ghost use Rattle.record.specs.Escape.{CoveringIsTested, Wide, Definite, NoRunEscapes};
ghost use Rattle.record.specs.Wait.{OpenPointsWait, numbers};
ghost use Rattle.record.specs.Bounds.{peak, window, NoRunDrawsMore, WindowIsMost};

use levels::Level;

// A state's pilots are split into every combination of the bits that they may be, and into nothing else: the keys of the
// combinations are 2 to the number of pilots that may be either bit, they are ascending, and a key is among them just if
// each pilot may be its bit of the key.
pub fn pilots_are_split<V: Level>() -> u8
    ensures { PilotsAreSplit V.Level.kind (keys V.Level.kind) }
{
    0
}

// The test by which a point is cut is true just where the kept state allows at each place at least what the point's state allows.
pub fn covering_is_tested<V: Level>() -> u8
    ensures { CoveringIsTested V.Level.kind (covers_all V.Level.kind) }
{
    0
}

// However a record was reached, the points that wait are just its open points, each once, the highest number first: the one that
// is taken next is the open point with the highest number, and where none waits, none is open.
pub fn open_points_wait<V: Level>() -> u8
    ensures { OpenPointsWait V.Level.kind numbers }
{
    0
}

// No run escapes the record. Take any starts, then points in any number, each under any rule whose merges cover both states,
// and further starts between. Then each run in bits that begins in a state covered by a taken start, with any inputs, is held
// by a path of recorded points from every point of this start: they have in turn the keys of the run's states, each with a
// charge no less than the energy of the cycle into its state, and they end before the run does only at an open point.
// V is the kind of the record's states, in which a place never written may be either bit, and B, whose every level is one bit,
// that of the run's. The core is sound.
pub fn no_run_escapes<V: Level, B: Level>() -> u8
    ensures { Wide V.Level.kind → Definite B.Level.kind → NoRunEscapes V.Level.kind B.Level.kind }
{
    0
}

// Where no point is open, no cycle of such a run draws more than the peak, and no w cycles in a row, or fewer, draw together more
// than the window of w.
pub fn no_run_draws_more<V: Level, B: Level>() -> u8
    ensures { Wide V.Level.kind → Definite B.Level.kind → NoRunDrawsMore V.Level.kind B.Level.kind peak window }
{
    0
}

// The window of w is the most that a path of w steps or fewer draws: no such path draws more, and one draws just as much.
pub fn window_is_most() -> u8
    ensures { WindowIsMost window }
{
    0
}

// Levels of 0, 1 and X may be the V of these theorems, and bits the B.
pub fn kinds_fit() -> u8
    ensures { Wide tri_kind × Definite bit_kind }
{
    0
}
