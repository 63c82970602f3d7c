// One tag explored by both: random limits, starts, budgets and rules.
use crate::comparison::Comparison;
use beside::{Answer, Bench, Case, Lengths, Pair, Part, Rows, Rule, Stop, Tally};
use design::Design;
use random_tags::Random;
use slow::{Fate, Limits, Record};
use slow_tag::{Question, Tag, refuse};

// Limits that are often small, sometimes ample, and seldom beyond what an exploration takes.
// Why numbers: the draw says which kind of limits it is, some more often; an enum to draw from would name each kind once more.
fn choose_limits(random: &mut Random) -> Limits {
    match random.below(10) {
        0..=2 => Limits {
            points: random.between(1, 40),
            open: random.between(1, 12),
            entries: random.between(1, 6),
        },
        3 => Limits {
            points: 90,
            open: 70,
            entries: 260,
        },
        4 => Limits {
            points: 90,
            open: random.between(2, 8),
            entries: 8,
        },
        5 => Limits {
            points: 90,
            open: 64,
            entries: random.between(1, 3),
        },
        _ => Limits {
            points: random.between(60, 150),
            open: 64,
            entries: 16,
        },
    }
}

// How long the memory for these limits is, with some places `more`.
fn lengths_of(limits: Limits, places: usize, more: usize) -> Lengths {
    Lengths {
        points: limits.points,
        opened: limits.open.saturating_mul(places).saturating_add(more),
        kept: limits.entries.saturating_mul(places).saturating_add(more),
        scratch: places
            .saturating_mul(2)
            .saturating_add(1024)
            .saturating_add(more),
    }
}

// Counts what became of the points.
fn count_fates(pair: &Pair, tally: &mut Tally) {
    tally.saw(pair.record.seen);
    for point in pair.record.points.iter() {
        match point.fate {
            Fate::Cut(_) => tally.cuts = tally.cuts.saturating_add(1),
            Fate::Halted => tally.halts = tally.halts.saturating_add(1),
            Fate::Open | Fate::Walked => {}
        }
    }
}

impl Comparison {
    // Makes an exploration with each length in turn too short by one, which is refused.
    fn make_short(&mut self, design: &Design, places: usize) -> Result<(), Stop> {
        let least = Limits {
            points: 1,
            open: 1,
            entries: 1,
        };
        for part in Part::ALL {
            let mut bench = Bench::new(lengths_of(least, places, 0), self.heap)?;
            bench.memory.short = Some(part);
            let made = bench.make(design);
            self.tally.note(made);
            let memory = refuse(Question::Memory, 0);
            self.tally
                .agree_on(Case::Makings, "a making", made, memory.into())?;
        }
        Ok(())
    }

    // Both explorations, just made, over memory for these limits and some places `more`.
    pub(crate) fn pair_over<'a>(
        &mut self,
        design: &'a Design,
        tag: &'a Tag,
        lent: Limits,
        more: usize,
    ) -> Result<Pair<'a>, Stop> {
        let mut bench = Bench::new(lengths_of(lent, tag.places(), more), self.heap)?;
        let made = bench.make(design);
        self.tally
            .agree_on(Case::Makings, "making", made, Answer::Value(0))?;
        let limits = Limits {
            points: lent.points.min(65535),
            open: lent.open.min(64),
            entries: lent.entries.min(256),
        };
        Ok(Pair {
            design,
            tag,
            bench,
            record: Record::new(limits, self.heap),
            starts: Vec::new(self.heap),
            refused: false,
            heap: self.heap,
        })
    }

    // Makes all calls with a length that is not that of the making.
    fn change_lengths(&mut self, pair: &mut Pair) -> Result<(), Stop> {
        pair.bench.memory.short = Some(self.random.pick(&Part::ALL));
        pair.ask_all(&mut self.tally)?;
        pair.bench.memory.short = None;
        pair.compare(&mut self.tally)
    }

    // Takes all starts, some twice, and some that are not there.
    fn take_starts(&mut self, pair: &mut Pair) -> Result<(), Stop> {
        for number in 0..pair.tag.start_count() {
            pair.start(number, &mut self.tally)?;
            if self.random.once_in(10) {
                pair.start(number, &mut self.tally)?;
            }
        }
        if self.random.once_in(8) {
            let beyond = pair.tag.start_count().saturating_add(self.random.below(3));
            pair.start(beyond, &mut self.tally)?;
        }
        Ok(())
    }

    // Some other call in between, or none.
    // Why numbers: the draw says which call it is, and mostly none; an enum to draw from would name each call once more.
    fn call_between(&mut self, pair: &mut Pair) -> Result<(), Stop> {
        match self.random.below(12) {
            0 => {
                pair.peak(&mut self.tally)?;
            }
            1 => {
                pair.window(2, 0, &mut self.tally)?;
            }
            2 => self.change_lengths(pair)?,
            3 => {
                let number = self.random.below(pair.tag.start_count());
                pair.start(number, &mut self.tally)?;
            }
            4 => {
                let other = self.random.pick(&Rule::ALL);
                pair.walk(other, 3, &mut self.tally)?;
            }
            _ => {}
        }
        Ok(())
    }

    // Walks with small budgets, with other calls in between, and then with a large one.
    fn walk_on(&mut self, pair: &mut Pair, rule: Rule) -> Result<(), Stop> {
        for _ in 0..self.random.below(4) {
            let budget = (self.random.below(9) & 0xff) as u16;
            pair.walk(rule, budget, &mut self.tally)?;
            self.call_between(pair)?;
        }
        pair.walk(rule, 600, &mut self.tally)?;
        Ok(())
    }

    // The figures of both, windows of several widths.
    fn figures(&mut self, pair: &mut Pair) -> Result<(), Stop> {
        pair.peak(&mut self.tally)?;
        let few = pair.record.points.len() <= 12;
        let wide = if few && self.random.once_in(40) {
            65535
        } else {
            9
        };
        for width in [0, 1, 2, 3, 5, wide] {
            let more = self.random.below(3);
            pair.window(width, more, &mut self.tally)?;
        }
        pair.figures(2, &mut self.tally)?;
        let length = pair.record.points.len();
        if 0 < length && self.random.once_in(4) {
            self.short_rows(pair, length)?;
        }
        Ok(())
    }

    // Asks for the window over rows, one of which is too short by one.
    fn short_rows(&mut self, pair: &mut Pair, length: usize) -> Result<(), Stop> {
        let short = length.saturating_sub(1);
        let mut rows = if self.random.once_in(2) {
            Rows::new(short, length, self.heap)?
        } else {
            Rows::new(length, short, self.heap)?
        };
        let window = pair.bench.window(pair.design, 2, &mut rows);
        let memory = refuse(Question::Memory, 0);
        self.tally
            .agree_on(Case::Lengths, "short rows", window, memory.into())?;
        self.tally.agree(Case::Lengths, rows.are_clear(), "the rows, one being short")
    }

    // Explores a tag by both.
    pub(crate) fn explore_tag(&mut self, design: &Design, tag: &Tag) -> Result<(), Stop> {
        if self.random.once_in(16) {
            self.make_short(design, tag.places())?;
        }
        let lent = choose_limits(&mut self.random);
        let more = self.random.below(tag.places());
        let mut pair = self.pair_over(design, tag, lent, more)?;
        let rule = self.random.pick(&Rule::ALL);
        if self.random.once_in(10) {
            pair.walk(rule, 3, &mut self.tally)?;
            pair.peak(&mut self.tally)?;
            pair.window(2, 1, &mut self.tally)?;
        }
        self.take_starts(&mut pair)?;
        self.walk_on(&mut pair, rule)?;
        self.figures(&mut pair)?;
        count_fates(&pair, &mut self.tally);
        self.run_all(&mut pair)?;
        self.damage_record(&mut pair)
    }
}
