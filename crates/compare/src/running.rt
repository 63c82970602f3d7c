// Random runs in bits, held against the record, the peak and the window of the library.
use crate::comparison::Comparison;
use beside::{Answer, Case, Pair, Rows, Stop};
use random_tags::Random;
use record::{Fate, Origin, Point};
use slow_bits::{cycle, drawn, first_state, key_of};
use slow_tag::Tag;
use std::alloc::{AllocError, Global};

// A run: the key of each state, and what the cycle into it draws, 0 for the first.
#[derive(Clone, Copy)]
struct Moment {
    key: usize,
    energy: u32,
}

// So many random bits.
fn bits(random: &mut Random, count: usize, heap: Global) -> Result<Vec<bool>, AllocError> {
    (0..count).map(|_| random.once_in(2)).collect(heap)
}

// A run of up to 12 cycles from a start, with random bits for what is unknown and random inputs, until it halts.
fn run(
    random: &mut Random,
    tag: &Tag,
    start: usize,
    heap: Global,
) -> Result<Vec<Moment>, AllocError> {
    let fill = bits(random, tag.places(), heap)?;
    let mut state = first_state(tag, start, &fill, heap)?;
    let mut moments = Vec::new(heap);
    moments.push(Moment {
        key: key_of(tag, &state),
        energy: 0,
    })?;
    for _ in 0..12 {
        if key_of(tag, &state) % 2 == 1 {
            return Ok(moments);
        }
        let inputs = bits(random, tag.input_count(), heap)?;
        let next = cycle(tag, &state, &inputs, heap)?;
        moments.push(Moment {
            key: key_of(tag, &next),
            energy: drawn(tag, &state, &next),
        })?;
        state = next;
    }
    Ok(moments)
}

// Is a point a successor of another, with this key?
fn is_step(point: &Point, before: usize, key: usize) -> bool {
    let from = match point.origin {
        Origin::From { point } => point as usize == before,
        Origin::Start => false,
    };
    from && point.key as usize == key
}

// The number of the point with a key that a path goes on to from a point; none from an open one.
fn step_to(points: &[Point], from: usize, key: usize) -> Option<usize> {
    let before = match points.get(from)?.fate {
        Fate::Walked => from,
        Fate::Cut { to } => to as usize,
        Fate::Open | Fate::Halted => return None,
    };
    points.iter().position(|point| is_step(point, before, key))
}

// Has a point the key of a moment, and a charge no less than the cycle draws?
fn holds(point: Option<&Point>, moment: &Moment) -> bool {
    point.is_some_and(|point| { point.key as usize == moment.key && moment.energy <= point.charge })
}

fn is_open(point: Option<&Point>) -> bool {
    point.is_some_and(|point| point.fate == Fate::Open)
}

// Does a path from a point have the keys of the run, each with a charge no less than the cycle draws, until the run ends or the path
// comes to an open point?
fn follows(points: &[Point], first: usize, moments: &[Moment]) -> bool {
    let Some((start, rest)) = moments.split_first() else {
        return true;
    };
    let mut at = first;
    let mut held = holds(points.get(at), start);
    for moment in rest {
        if !held || is_open(points.get(at)) {
            return held;
        }
        let Some(next) = step_to(points, at, moment.key) else {
            return false;
        };
        at = next;
        held = holds(points.get(at), moment);
    }
    held
}

// The most that so many successive cycles of a run draw.
fn most_drawn(moments: &[Moment], width: usize) -> u64 {
    let drawn = |first| {
        moments
            .iter()
            .skip(first)
            .take(width)
            .fold(0, |sum: u64, moment: &Moment| {
                sum.saturating_add(u64::from(moment.energy))
            })
    };
    (0..moments.len()).map(drawn).max().unwrap_or(0)
}

impl Comparison {
    // Holds the cycles of a run against the peak, and its stretches against windows.
    fn within(&mut self, pair: &mut Pair, moments: &[Moment]) -> Result<(), Stop> {
        let Answer::Value(peak) = pair.bench.peak(pair.design) else {
            return Ok(());
        };
        for moment in moments {
            let inside = u64::from(moment.energy) <= peak;
            self.tally
                .agree(Case::RunCycles, inside, "a cycle within the peak")?;
        }
        let length = pair.record.points.len();
        for width in [1, 2, 3, 7] {
            let mut rows = Rows::new(length, length, self.heap)?;
            let window = pair.bench.window(pair.design, width, &mut rows);
            let drawn = most_drawn(moments, width as usize);
            let inside = matches!(window, Answer::Value(most) if drawn <= most);
            self.tally
                .agree(Case::Stretches, inside, "a stretch within the window")?;
        }
        Ok(())
    }

    // Runs from each start that was taken.
    pub(crate) fn run_all(&mut self, pair: &mut Pair) -> Result<(), Stop> {
        let starts = pair.starts.clone()?;
        for taken in starts.iter() {
            for _ in 0..2 {
                let moments = run(&mut self.random, pair.tag, taken.start, self.heap)?;
                let along = follows(&pair.bench.memory.points, taken.point, &moments);
                self.tally.agree(Case::Runs, along, "a run along a path")?;
                if pair.record.open_count() == 0 && !pair.refused {
                    self.within(pair, &moments)?;
                }
            }
        }
        Ok(())
    }
}
