// Tags at their limits, and the toggling tag, whose answers are known beforehand.
use crate::comparison::Comparison;
use beside::{Answer, Case, Ending, Rule, Stop};
use decode::read_design;
use design::Design;
use random_tags::{Parts, push_two};
use slow::{Fate, Limits, Point};
use slow_tag::{Question, read_tag, refuse};
use std::alloc::{AllocError, Global};

// A cell of the constant 0.
const ZERO: [u8; 10] = [0, 5, 0, 0, 0, 0, 0, 0, 0, 0];

// A gate that is 1 where both pins are, and a cell of the constant 1.
const AND: [u8; 10] = [2, 0, 8, 0, 5, 0, 4, 0, 1, 0];

const ONE: [u8; 10] = [0, 6, 0, 0, 0, 0, 0, 0, 0, 0];

// A point that came from another.
const fn step(origin: usize, key: usize, charge: u32, fate: Fate) -> Point {
    Point {
        origin: Some(origin),
        key,
        charge,
        fate,
    }
}

// Fields of two bytes.
fn push_fields(bytes: &mut Vec<u8>, fields: &[usize]) -> Result<(), AllocError> {
    for field in fields {
        push_two(bytes, *field)?;
    }
    Ok(())
}

fn fields(values: &[usize], heap: Global) -> Result<Vec<u8>, AllocError> {
    let mut bytes = Vec::new(heap);
    push_fields(&mut bytes, values)?;
    Ok(bytes)
}

// A tag whose nine further pilots count up: net 5 is the constant 1, and then each bit has its flop, the sum and the carry.
fn counter(heap: Global) -> Result<Parts, AllocError> {
    let mut parts = Parts::toggling(heap)?;
    parts.cells.extend_from_slice(&AND)?;
    parts.cells.extend_from_slice(&ONE)?;
    push_fields(&mut parts.nets, &[5, 0, 0, 0, 0])?;
    parts.pilots = fields(&[0, 2], heap)?;
    parts.starts = [0; 11].to_vec(heap)?;
    let mut carry = 5;
    for bit in 0..9usize {
        let flop = 6 + 3 * bit;
        let (sum, next) = (flop + 1, flop + 2);
        push_fields(&mut parts.nets, &[2, sum, 0, 0, 0])?;
        push_fields(&mut parts.nets, &[3, flop, carry, 0, 0])?;
        push_fields(&mut parts.nets, &[4, flop, carry, 0, 0])?;
        push_two(&mut parts.pilots, flop)?;
        carry = next;
    }
    Ok(parts)
}

// Are these the points of the toggling tag?
fn is_listing(points: &[Point]) -> bool {
    let first = Point {
        origin: None,
        key: 0,
        charge: 0,
        fate: Fate::Walked,
    };
    let listing = [
        first,
        step(0, 0, 16, Fate::Cut(0)),
        step(0, 2, 26, Fate::Walked),
        step(2, 0, 24, Fate::Cut(0)),
        step(2, 2, 16, Fate::Cut(2)),
    ];
    points == listing.as_slice()
}

// What a walk answers that takes so many points and is refused.
fn walked(count: usize, question: Question, place: usize) -> Answer {
    Answer::Walked(count, Ending::Refused(refuse(question, place).into()))
}

impl Comparison {
    // Reads a bundle by both, and holds the answer against the one that is expected.
    fn expect_read(&mut self, parts: &Parts, expected: Answer) -> Result<(), Stop> {
        let answer = self.read_both(&parts.bundle(self.heap)?)?;
        self.tally
            .agree_on(Case::Limits, "a tag at its limits", answer, expected)
    }

    // 64 cells are taken, 65 are not.
    fn try_cells(&mut self) -> Result<(), Stop> {
        let mut parts = Parts::toggling(self.heap)?;
        for _ in 4..64 {
            parts.cells.extend_from_slice(&ZERO)?;
        }
        self.expect_read(&parts, Answer::Value(0))?;
        parts.cells.extend_from_slice(&ZERO)?;
        self.expect_read(&parts, refuse(Question::Cells, 0).into())
    }

    // 8 starts are taken, 9 are not.
    fn try_starts(&mut self) -> Result<(), Stop> {
        let mut parts = Parts::toggling(self.heap)?;
        for _ in 1..8 {
            parts.starts.extend_from_slice(&[0, 1])?;
        }
        self.expect_read(&parts, Answer::Value(0))?;
        parts.starts.extend_from_slice(&[0, 1])?;
        self.expect_read(&parts, refuse(Question::Starts, 0).into())
    }

    // The toggling tag is explored as worked out by hand: its points, its peak and its windows.
    fn try_toggling(&mut self) -> Result<(), Stop> {
        let bytes = Parts::toggling(self.heap)?.bundle(self.heap)?;
        let mut design = Design::new();
        let taken = read_design(&mut design, &bytes).is_ok();
        self.tally.agree(Case::Limits, taken, "the toggling tag")?;
        let Ok(tag) = read_tag(&bytes, self.heap) else {
            return self.tally.agree(Case::Limits, false, "the toggling tag");
        };
        let lent = Limits {
            points: 4096,
            open: 64,
            entries: 64,
        };
        let mut pair = self.pair_over(&design, &tag, lent, 0)?;
        pair.start(0, &mut self.tally)?;
        pair.walk(Rule::Plain, 65535, &mut self.tally)?;
        let listed = is_listing(&pair.record.points);
        self.tally
            .agree(Case::Limits, listed, "the toggling tag's points")?;
        let peak = pair.peak(&mut self.tally)?;
        self.tally
            .agree_on(Case::Limits, "its peak", peak, Answer::Value(26))?;
        for (width, sum) in [(1, 26), (2, 50), (3, 76)] {
            let window = pair.window(width, 0, &mut self.tally)?;
            self.tally
                .agree_on(Case::Limits, "its window", window, Answer::Value(sum))?;
        }
        Ok(())
    }

    // Takes the start of a tag and walks under a rule, over memory for these limits: the walk ends as expected.
    fn expect_walk(
        &mut self,
        parts: &Parts,
        lent: Limits,
        rule: Rule,
        expected: Answer,
    ) -> Result<(), Stop> {
        let bytes = parts.bundle(self.heap)?;
        let mut design = Design::new();
        let taken = read_design(&mut design, &bytes).is_ok();
        let what = "a tag that fills its memory";
        self.tally.agree(Case::Limits, taken, what)?;
        let Ok(tag) = read_tag(&bytes, self.heap) else {
            return self.tally.agree(Case::Limits, false, what);
        };
        let mut pair = self.pair_over(&design, &tag, lent, 0)?;
        pair.start(0, &mut self.tally)?;
        let answer = pair.walk(rule, 65535, &mut self.tally)?;
        self.tally
            .agree_on(Case::Limits, "a full memory", answer, expected)
    }

    // With the halt flop as the one pilot each point has one successor. There are never more than 65,535 points.
    fn try_points(&mut self) -> Result<(), Stop> {
        let mut parts = Parts::toggling(self.heap)?;
        parts.pilots = fields(&[0, 2], self.heap)?;
        let lent = Limits {
            points: 65600,
            open: 2,
            entries: 1,
        };
        let expected = walked(65534, Question::PointRoom, 65534);
        self.expect_walk(&parts, lent, Rule::Plain, expected)
    }

    // With three unknown pilots each point has eight successors. There are never more than 64 open points.
    fn try_open(&mut self) -> Result<(), Stop> {
        let mut parts = Parts::toggling(self.heap)?;
        for _ in 0..2 {
            push_fields(&mut parts.nets, &[2, 1, 0, 0, 0])?;
        }
        parts.pilots = fields(&[0, 2, 3, 5, 6], self.heap)?;
        parts.starts = [0; 4].to_vec(self.heap)?;
        let lent = Limits {
            points: 300,
            open: 70,
            entries: 1,
        };
        let expected = walked(9, Question::OpenRoom, 72);
        self.expect_walk(&parts, lent, Rule::Plain, expected)
    }

    // The counter has another key at each point, and the eager rule keeps them all. There are never more than 256 entries.
    fn try_entries(&mut self) -> Result<(), Stop> {
        let lent = Limits {
            points: 400,
            open: 4,
            entries: 260,
        };
        let expected = walked(256, Question::EntryRoom, 256);
        self.expect_walk(&counter(self.heap)?, lent, Rule::Eager, expected)
    }

    // Tries all of these.
    pub(crate) fn try_limits(&mut self) -> Result<(), Stop> {
        self.try_cells()?;
        self.try_starts()?;
        self.try_toggling()?;
        self.try_points()?;
        self.try_open()?;
        self.try_entries()
    }
}
