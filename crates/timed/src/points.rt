use figures::Rows;
use record::{Fate, Origin, Point};
use std::alloc::{AllocError, Global};

// Point i > 0 comes from point (i - 1) / 2, with a charge of 1000 + i * 7919 % 1009. The points of the last level are cut to point
// i % 1000; the others are walked.
fn made_up(i: u16, count: u16) -> Point {
    let fate = if 2 * u32::from(i) + 1 < u32::from(count) {
        Fate::Walked
    } else {
        Fate::Cut { to: i % 1000 }
    };
    match i.checked_sub(1) {
        None => Point {
            fate,
            ..Point::default()
        },
        Some(before) => Point {
            origin: Origin::From { point: before / 2 },
            key: 0,
            charge: 1000 + u32::from(i) * 7919 % 1009,
            fate,
        },
    }
}

fn window_of(heap: Global, count: u16, width: u16) -> Result<u64, AllocError> {
    let points: Vec<Point> = (0..count).map(|i| made_up(i, count)).collect(heap)?;
    let mut row = vec![in heap; 0; count as usize]?;
    let mut other = vec![in heap; 0; count as usize]?;
    let mut rows = Rows {
        row: &mut row,
        other: &mut other,
    };
    Ok(figures::window(&points, width, &mut rows).unwrap_or(0))
}

// The window of `width` over `count` points that are made up; 0 if it is refused.
#[unsafe(no_mangle)]
pub extern "C" fn timed_window(heap: Global, count: u16, width: u16) -> u64 {
    window_of(heap, count, width).unwrap_or(0)
}
