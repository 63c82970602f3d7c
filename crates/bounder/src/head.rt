use record::Point;

// What a listing begins with: how many points are recorded and open, the peak in femtojoules and as power in nanowatts, and the
// window in cycles with its energy in femtojoules.
#[derive(Clone, Copy, PartialEq, Debug)]
pub struct Head {
    pub points: usize,
    pub open: usize,
    pub peak: u32,
    pub power: u64,
    pub window: u16,
    pub energy: u64,
}

// A point as it is listed, with its number.
#[derive(Clone, Copy)]
pub struct Listed {
    pub number: usize,
    pub point: Point,
}
