use crate::rounds::repeat;
use bundle::Refusal;
use decode::read_design;
use design::Design;
use explore::Exploration;
use levels::Tri;
use record::Point;
use rules::Plain;
use std::alloc::{AllocError, Global};

// The open points and the entries that there is memory for.
const SLOTS: usize = 64;

const ENTRIES: usize = 256;

// An exploration of all starts, over this memory: how many points there are in the end.
fn explore(
    design: &Design,
    points: &mut [Point],
    opened: &mut [Tri],
    kept: &mut [Tri],
    scratch: &mut [Tri],
) -> Result<usize, Refusal> {
    let mut exploration = Exploration::new();
    exploration.make(design, points, opened, kept, scratch)?;
    for number in 0..design.start_count() {
        exploration.start(design, number, points, opened, kept, scratch)?;
    }
    let _ = exploration.walk(design, &Plain, 65535, points, opened, kept, scratch);
    Ok(exploration.point_count())
}

// The points of an exploration that is made so often.
fn explore_rounds(
    heap: Global,
    design: &Design,
    most: u32,
    rounds: u32,
) -> Result<Vec<Point>, AllocError> {
    let places = design.places().min(8192);
    let mut points = vec![in heap; Point::default(); most as usize]?;
    let mut opened = vec![in heap; Tri::X; SLOTS * places]?;
    let mut kept = vec![in heap; Tri::X; ENTRIES * places]?;
    let mut scratch = vec![in heap; Tri::X; 2 * places + 1024]?;
    repeat(rounds, &mut points, |points| {
        explore(design, points, &mut opened, &mut kept, &mut scratch)
    });
    Ok(points)
}

// Explores all starts `rounds` times under the plain rule, and answers the sum of the charges recorded, plus 2^32 for each point;
// 0 if something is refused. No more than `most` points are recorded.
#[unsafe(no_mangle)]
pub extern "C" fn timed_walk(heap: Global, tag: &[u8], most: u32, rounds: u32) -> u64 {
    let mut design = Design::new();
    if read_design(&mut design, tag).is_err() {
        return 0;
    }
    explore_rounds(heap, &design, most, rounds).map_or(0, |points| {
        points
            .iter()
            .map(|point| u64::from(point.charge).wrapping_add(1 << 32))
            .fold(0, u64::wrapping_add)
    })
}
