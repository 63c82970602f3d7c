use bundle::Refusal;
use decode::read_design;
use design::Design;
use explore::{Ending, Exploration, Figures};
use figures::Rows;
use levels::Tri;
use record::{Fate, Origin, Point};
use rules::Rule;
use std::alloc::Global;
use std::process::Abort;
use std::test::*;

// What stands in a point's memory before the point is recorded. It names points that are not in use, and its charge is the largest.
const NO_POINT: Point = Point {
    origin: Origin::From { point: 65535 },
    key: 65535,
    charge: 4294967295,
    fate: Fate::Cut { to: 65535 },
};

// The memory lent to an exploration, but for scratch.
#[derive(Drop)]
pub(crate) struct Memory {
    pub(crate) points: Vec<Point>,
    opened: Vec<Tri>,
    kept: Vec<Tri>,
}

// Two rows lent for a window.
#[derive(Drop)]
struct Sums {
    row: Vec<u64>,
    other: Vec<u64>,
}

// An exploration, the memory and the scratch lent to it, and two rows. Each method makes the call of its name with scratch and rows that hold
// something else than the call leaves, and checks what it leaves: scratch all X, rows all 0, and all else as it was if it is refused.
// A walk refused midway leaves what a walk does that takes only the points before.
#[derive(Drop)]
pub(crate) struct Lent {
    pub(crate) exploration: Exploration,
    pub(crate) memory: Memory,
    scratch: Vec<Tri>,
    sums: Sums,
}

impl Memory {
    fn copy(&self) -> Result<Memory, Fail> {
        Ok(Memory {
            points: self.points.clone()?,
            opened: self.opened.clone()?,
            kept: self.kept.clone()?,
        })
    }
}

impl Sums {
    fn rows(&mut self) -> Rows<'_> {
        Rows {
            row: &mut self.row,
            other: &mut self.other,
        }
    }

    fn copy(&self) -> Result<Sums, Fail> {
        Ok(Sums {
            row: self.row.clone()?,
            other: self.other.clone()?,
        })
    }
}

pub(crate) fn read(rt: &impl Abort, bytes: &[u8]) -> Result<Design, Fail> {
    let mut design = Design::new();
    assert!(rt; read_design(&mut design, bytes).is_ok());
    Ok(design)
}

impl Lent {
    // An exploration not yet made, and no memory.
    pub(crate) fn new(heap: Global) -> Lent {
        Lent {
            exploration: Exploration::new(),
            memory: Memory {
                points: Vec::new(heap),
                opened: Vec::new(heap),
                kept: Vec::new(heap),
            },
            scratch: Vec::new(heap),
            sums: Sums {
                row: Vec::new(heap),
                other: Vec::new(heap),
            },
        }
    }

    // Lends so many points, and so many open, kept and scratch places, from here on, and rows as long as the points.
    pub(crate) fn lend(
        &mut self,
        points: usize,
        opened: usize,
        kept: usize,
        scratch: usize,
    ) -> Result<(), Fail> {
        self.memory.points.resize(points, NO_POINT)?;
        self.memory.opened.resize(opened, Tri::One)?;
        self.memory.kept.resize(kept, Tri::Zero)?;
        self.scratch.resize(scratch, Tri::One)?;
        self.lend_rows(points, points)
    }

    // Lends rows of these lengths from here on.
    pub(crate) fn lend_rows(&mut self, row: usize, other: usize) -> Result<(), Fail> {
        self.sums.row.resize(row, 7)?;
        self.sums.other.resize(other, 7)?;
        Ok(())
    }

    // Overwrites a record.
    pub(crate) fn write(&mut self, number: usize, origin: Origin, fate: Fate) -> Result<(), Fail> {
        let Some(point) = self.memory.points.get_mut(number) else {
            return Err(Fail::new("no such point"));
        };
        point.origin = origin;
        point.fate = fate;
        Ok(())
    }

    fn copy(&self) -> Result<Lent, Fail> {
        Ok(Lent {
            exploration: self.exploration,
            memory: self.memory.copy()?,
            scratch: self.scratch.clone()?,
            sums: self.sums.copy()?,
        })
    }

    // Are the points, the open states and the kept states those of the other, and as many in use?
    pub(crate) fn equals(&self, other: &Lent) -> bool {
        self.memory.points == other.memory.points
            && self.memory.opened == other.memory.opened
            && self.memory.kept == other.memory.kept
            && self.exploration.point_count() == other.exploration.point_count()
            && self.exploration.open_count() == other.exploration.open_count()
    }

    fn spoil(&mut self) {
        self.scratch.fill(Tri::One);
        self.sums.row.fill(7);
        self.sums.other.fill(7);
    }

    fn scratch_is_cleared(&self, rt: &impl Abort) -> Result<(), Fail> {
        assert!(rt; self.scratch.iter().all(|level| *level == Tri::X));
        Ok(())
    }

    fn rows_are_cleared(&self, rt: &impl Abort) -> Result<(), Fail> {
        assert!(rt;
            self.sums
                .row
                .iter()
                .chain(self.sums.other.iter())
                .all(|value| *value == 0)
        );
        Ok(())
    }

    pub(crate) fn make(
        &mut self,
        rt: &impl Abort,
        design: &Design,
    ) -> Result<Result<(), Refusal>, Fail> {
        let before = self.copy()?;
        self.spoil();
        let answer = self.exploration.make(
            design,
            &self.memory.points,
            &self.memory.opened,
            &self.memory.kept,
            &mut self.scratch,
        );
        self.scratch_is_cleared(rt)?;
        if answer.is_err() {
            assert!(rt; self.equals(&before));
        }
        Ok(answer)
    }

    pub(crate) fn start(
        &mut self,
        rt: &impl Abort,
        design: &Design,
        number: usize,
    ) -> Result<Result<usize, Refusal>, Fail> {
        let before = self.copy()?;
        self.spoil();
        let answer = self.exploration.start(
            design,
            number,
            &mut self.memory.points,
            &mut self.memory.opened,
            &self.memory.kept,
            &mut self.scratch,
        );
        self.scratch_is_cleared(rt)?;
        if answer.is_err() {
            assert!(rt; self.equals(&before));
        }
        Ok(answer)
    }

    pub(crate) fn walk<R: Rule>(
        &mut self,
        rt: &impl Abort,
        design: &Design,
        rule: &R,
        budget: u16,
    ) -> Result<(usize, Ending), Fail> {
        let mut before = self.copy()?;
        self.spoil();
        let (taken, ending) = self.exploration.walk(
            design,
            rule,
            budget,
            &mut self.memory.points,
            &mut self.memory.opened,
            &mut self.memory.kept,
            &mut self.scratch,
        );
        self.scratch_is_cleared(rt)?;
        if let Ending::Refused(_) = ending {
            before.take(rt, design, rule, taken)?;
            assert!(rt; self.equals(&before));
        }
        Ok((taken, ending))
    }

    // Takes so many points, if any.
    fn take<R: Rule>(
        &mut self,
        rt: &impl Abort,
        design: &Design,
        rule: &R,
        count: usize,
    ) -> Result<(), Fail> {
        if count != 0 {
            let budget = u16::try_from(count)?;
            let answer = self.exploration.walk(
                design,
                rule,
                budget,
                &mut self.memory.points,
                &mut self.memory.opened,
                &mut self.memory.kept,
                &mut self.scratch,
            );
            assert_eq!(rt; answer, (count, Ending::Spent));
        }
        Ok(())
    }

    pub(crate) fn peak(
        &mut self,
        rt: &impl Abort,
        design: &Design,
    ) -> Result<Result<u32, Refusal>, Fail> {
        self.spoil();
        let answer = self.exploration.peak(
            design,
            &self.memory.points,
            &self.memory.opened,
            &self.memory.kept,
            &mut self.scratch,
        );
        self.scratch_is_cleared(rt)?;
        Ok(answer)
    }

    // The window; peak and window together are answered and refused alike.
    pub(crate) fn window(
        &mut self,
        rt: &impl Abort,
        design: &Design,
        width: u16,
    ) -> Result<Result<u64, Refusal>, Fail> {
        let both = self.figures(rt, design, width)?;
        self.spoil();
        let answer = self.exploration.window(
            design,
            width,
            &self.memory.points,
            &self.memory.opened,
            &self.memory.kept,
            &mut self.scratch,
            &mut self.sums.rows(),
        );
        self.scratch_is_cleared(rt)?;
        self.rows_are_cleared(rt)?;
        match answer {
            Ok(window) => {
                let peak = self.peak(rt, design)??;
                assert!(rt; both == Ok(Figures { peak, window }));
            }
            Err(refusal) => assert!(rt; both == Err(refusal)),
        }
        Ok(answer)
    }

    fn figures(
        &mut self,
        rt: &impl Abort,
        design: &Design,
        width: u16,
    ) -> Result<Result<Figures, Refusal>, Fail> {
        self.spoil();
        let answer = self.exploration.figures(
            design,
            width,
            &self.memory.points,
            &self.memory.opened,
            &self.memory.kept,
            &mut self.scratch,
            &mut self.sums.rows(),
        );
        self.scratch_is_cleared(rt)?;
        self.rows_are_cleared(rt)?;
        Ok(answer)
    }
}
