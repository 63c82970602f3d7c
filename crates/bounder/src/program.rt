// The program `bound`, but for its `main`.
ghost use Rattle.std.specs.Prelude.{IfOk};
ghost use Rattle.decode.specs.Decode.{decoded};
ghost use Rattle.bounder.specs.Bound.{NoRunDrawsMore};

use crate::bounding::bound;
use crate::head::{Head, Listed};
use console::{Stop, finish, first_bytes, places_within};
use decode::read_design;
use design::Design;
use explore::Exploration;
use figures::Rows;
use levels::Tri;
use record::Point;
use std::alloc::Global;
use std::process::ExitCode;

// The most points, open points and entries that there is memory for.
const MOST_POINTS: usize = 4096;

const MOST_OPEN: usize = 64;

const MOST_ENTRIES: usize = 64;

// The head and the points of the exploration of the tag that the bundle stands for.
fn explore_tag(bytes: &[u8], heap: Global) -> Result<(Head, Vec<Point>), Stop>
    ensures { IfOk result (λ answer. NoRunDrawsMore (decoded bytes.now) answer.0) }
{
    let mut design = Design::new();
    read_design(&mut design, bytes)?;
    let places = places_within(&design)?;
    let mut points = vec![in heap; Point::default(); MOST_POINTS]?;
    let mut opened = vec![in heap; Tri::X; MOST_OPEN * places]?;
    let mut kept = vec![in heap; Tri::X; MOST_ENTRIES * places]?;
    let mut scratch = vec![in heap; Tri::X; 2 * places + 1024]?;
    let mut row = vec![in heap; 0; MOST_POINTS]?;
    let mut other = vec![in heap; 0; MOST_POINTS]?;
    let mut exploration = Exploration::new();
    let mut rows = Rows {
        row: &mut row,
        other: &mut other,
    };
    let head = bound(
        &design,
        &mut exploration,
        &mut points,
        &mut opened,
        &mut kept,
        &mut scratch,
        &mut rows,
    )?;
    points.truncate(head.points);
    Ok((head, points))
}

fn print_listing(rt: &HostRuntime) -> Result<(), Stop> {
    let bytes = first_bytes(rt.stdin(), rt.alloc())?;
    let (head, points) = explore_tag(&bytes, rt.alloc())?;
    println!(rt; "{head}")?;
    for (number, point) in points.iter().enumerate() {
        let listed = Listed {
            number,
            point: *point,
        };
        println!(rt; "{listed}")?;
    }
    Ok(())
}

// Reads a bundle from standard input, and prints its listing, or the refusal. A refusal or an error ends the program
// with status 1.
pub fn bound_program(rt: &HostRuntime) -> anyhow::Result<ExitCode> {
    finish(rt, print_listing(rt))
}
