// The peak and the window of an exploration.
ghost use Rattle.std.specs.Prelude.{◌≡◌, ◌≤◌, ◌&&◌, length, take, nat_le};
ghost use Rattle.std.specs.Result.{result_err};
ghost use Rattle.bundle.specs.Format.{first_refusal};
ghost use Rattle.design.specs.Views.{core};
ghost use Rattle.explore.specs.Memory.{memory_of};
ghost use Rattle.figures.specs.Rows.{SameRows};
ghost use Rattle.explore.specs.Calls.{done_questions, Peaks, Windows, Figured};
ghost use Rattle.explore.specs.History.{NoRunEscapesTheRecord};

use crate::answers::Figures;
use crate::exploration::Exploration;
use bundle::{Fault, Refusal, ask, ask_at};
use design::Design;
use figures::Rows;
use levels::Tri;
use record::Point;

impl Exploration {
    // The points in use.
    fn used<'a>(&self, points: &'a [Point]) -> &'a [Point]
        requires { self.now.point_count ≤ length points.now }
        ensures { result.now ≡ take self.now.point_count points.now }
    {
        &points[..self.point_count]
    }

    // Is each row at least as long as the points in use, if the memory fits?
    fn rows_fit(&self, fits: bool, rows: &Rows) -> bool
        ensures { result ≡ (fits && nat_le self.now.point_count (length rows.now.row.now) && nat_le self.now.point_count (length rows.now.other.now)) }
    {
        fits && self.point_count <= rows.row.len() && self.point_count <= rows.other.len()
    }

    // Does the memory fit, was a start taken, and is no point open?
    fn ask_done(&self, fits: bool) -> Result<(), Refusal>
        ensures { result_err result ≡ first_refusal (done_questions fits self.now) }
    {
        ask(fits, Fault::Memory)?;
        ask(0 < self.point_count, Fault::NotStarted)?;
        ask_at(
            self.open_count == 0,
            Fault::StillOpen,
            self.numbers[0] as usize,
        )
    }

    // The largest charge of any point. Refused if the lent memory is not as long as at the making, before a start is taken, and
    // while a point is open, whose place is the lowest such one's. The scratch is all X in the end either way.
    pub fn peak(
        &self,
        design: &Design,
        points: &[Point],
        opened: &[Tri],
        kept: &[Tri],
        scratch: &mut [Tri],
    ) -> Result<u32, Refusal>
        ensures { Peaks (core design.now)
            (memory_of self.now points.now opened.now kept.now scratch.old) (memory_of self.now points.now opened.now kept.now scratch.new) result }
    {
        let fits = self.fits(design, points, opened, kept, scratch);
        scratch.fill(Tri::X);
        self.ask_done(fits)?;
        Ok(figures::peak(self.used(points)))
    }

    // The most that a path of at most `width` steps from any point draws. Refused as the peak is, and if a row is shorter than
    // the points in use, if the width is 0, and if a record names a point that is not in use, whose place is the first such
    // record's. The scratch is all X in the end either way, and the rows, which may hold anything, are all 0.
    pub fn window(
        &self,
        design: &Design,
        width: u16,
        points: &[Point],
        opened: &[Tri],
        kept: &[Tri],
        scratch: &mut [Tri],
        rows: &mut Rows,
    ) -> Result<u64, Refusal>
        ensures windows { Windows (core design.now) width
            (memory_of self.now points.now opened.now kept.now scratch.old) rows.old.row.now rows.old.other.now
            (memory_of self.now points.now opened.now kept.now scratch.new) rows.new.row.now rows.new.other.now result }
        ensures same_rows { SameRows rows.old rows.new }
    {
        let fits = self.fits(design, points, opened, kept, scratch);
        let fits = self.rows_fit(fits, rows);
        scratch.fill(Tri::X);
        if let Err(refusal) = self.ask_done(fits) {
            rows.row.fill(0);
            rows.other.fill(0);
            return Err(refusal);
        }
        figures::window(self.used(points), width, rows)
    }

    // The peak and the window of `width` together, refused as the window is.
    //
    // No run escapes the record, whatever starts, walks, peaks and windows were called since the making, in any order and number,
    // some of them refused, and whatever the rules of the walks, if only their merges cover both states. Of every run in bits from
    // a start that was taken, whatever its inputs: from each point of its start a path of recorded points has the run's keys, each
    // with a charge no less than the energy of the cycle, until the run ends or the path comes to an open point. An answered peak
    // is the largest charge, and no cycle of such a run draws more. An answered window is the most that `width` steps of a path or
    // fewer draw, and no as many successive cycles of such a run draw more.
    pub fn figures(
        &self,
        design: &Design,
        width: u16,
        points: &[Point],
        opened: &[Tri],
        kept: &[Tri],
        scratch: &mut [Tri],
        rows: &mut Rows,
    ) -> Result<Figures, Refusal>
        ensures figured { Figured (core design.now) width
            (memory_of self.now points.now opened.now kept.now scratch.old) rows.old.row.now rows.old.other.now
            (memory_of self.now points.now opened.now kept.now scratch.new) rows.new.row.now rows.new.other.now result }
        ensures no_run_escapes { NoRunEscapesTheRecord (core design.now) (memory_of self.now points.now opened.now kept.now scratch.old) }
        ensures same_rows { SameRows rows.old rows.new }
    {
        let window = self.window(design, width, points, opened, kept, scratch, rows)?;
        Ok(Figures {
            peak: figures::peak(self.used(points)),
            window,
        })
    }
}
