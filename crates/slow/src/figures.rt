// Peak and window of a record.
use crate::record::{Fate, Point, Record};
use slow_tag::{Question, Refusal, Stop, ask};
use std::alloc::{AllocError, Global};

// A path that goes so far: the point at its end, and the sum of the charges of its steps.
#[derive(Clone, Copy)]
struct Path {
    end: usize,
    sum: u64,
}

// The point whose successors a path goes on to: a walked point itself, or the one that a cut point is cut to.
fn goes_on_from(points: &[Point], number: usize) -> Option<usize> {
    match points.get(number)?.fate {
        Fate::Walked => Some(number),
        Fate::Cut(to) => Some(to),
        Fate::Open | Fate::Halted => None,
    }
}

// Is there a step of a path from one point to another?
fn is_step(points: &[Point], from: usize, to: &Point) -> bool {
    let before = goes_on_from(points, from);
    before.is_some() && before == to.origin
}

// Every path that is one step longer than one of these.
fn longer(points: &[Point], paths: &[Path], heap: Global) -> Result<Vec<Path>, AllocError> {
    let mut next = Vec::new(heap);
    for path in paths {
        let steps = points.iter().enumerate();
        next.extend(
            steps
                .filter(|(_, point)| is_step(points, path.end, point))
                .map(|(end, point)| Path {
                    end,
                    sum: path.sum.saturating_add(u64::from(point.charge)),
                }),
        )?;
    }
    Ok(next)
}

// The most that a path of one more step from a point draws, where `best` has the most for each point so far.
fn most_from(points: &[Point], best: &[u64], from: usize) -> u64 {
    points
        .iter()
        .zip(best)
        .filter(|(point, _)| is_step(points, from, point))
        .map(|(point, then)| then.saturating_add(u64::from(point.charge)))
        .max()
        .unwrap_or(0)
}

impl Point {
    // Does it name only points below the count?
    fn names_below(&self, count: usize) -> bool {
        let to = match self.fate {
            Fate::Cut(number) => Some(number),
            Fate::Open | Fate::Walked | Fate::Halted => None,
        };
        [self.origin, to]
            .iter()
            .flatten()
            .all(|number| *number < count)
    }
}

impl Record {
    // Was a start taken, and is no point open?
    fn ask_done(&self) -> Result<(), Refusal> {
        ask(!self.points.is_empty(), Question::Started, 0)?;
        for (number, point) in self.points.iter().enumerate() {
            ask(point.fate != Fate::Open, Question::NoneOpen, number)?;
        }
        Ok(())
    }

    // The largest charge.
    pub fn peak(&self) -> Result<u32, Refusal> {
        self.ask_done()?;
        let charges = self.points.iter().map(|point| point.charge);
        Ok(charges.max().unwrap_or(0))
    }

    fn ask_window(&self, width: usize) -> Result<(), Refusal> {
        self.ask_done()?;
        ask(width != 0, Question::Width, 0)?;
        for (number, point) in self.points.iter().enumerate() {
            let named = point.names_below(self.points.len());
            ask(named, Question::Names, number)?;
        }
        Ok(())
    }

    // The largest sum over paths of at most `width` steps, by a table over the steps.
    pub fn window(&self, width: usize, heap: Global) -> Result<u64, Stop> {
        self.ask_window(width)?;
        let mut best = vec![in heap; 0; self.points.len()]?;
        for _ in 0..width {
            best = (0..self.points.len())
                .map(|from| most_from(&self.points, &best, from))
                .collect(heap)?;
        }
        Ok(best.iter().copied().max().unwrap_or(0))
    }

    // The same by going through all paths, one by one; none if there are more than `most` of a length.
    pub fn window_by_paths(
        &self,
        width: usize,
        most: usize,
        heap: Global,
    ) -> Result<Option<u64>, Stop> {
        self.ask_window(width)?;
        let ends = 0..self.points.len();
        let mut paths: Vec<Path> = ends.map(|end| Path { end, sum: 0 }).collect(heap)?;
        let mut sum = 0;
        for _ in 0..width {
            if most < paths.len() {
                return Ok(None);
            }
            paths = longer(&self.points, &paths, heap)?;
            sum = paths.iter().fold(sum, |sum, path| path.sum.max(sum));
        }
        Ok(Some(sum))
    }
}
