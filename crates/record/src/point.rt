// Where a point came from: a start, or the point that it is a successor of.
// Why no Option: it has the shape of `Option<u16>`, but a Display of its own, which an Option of the library cannot be given, and the
// theorems speak of starts and of points that another leads to.
#[derive(Clone, Copy, PartialEq, Eq, Debug, Default)]
pub enum Origin {
    #[default]
    Start,
    From { point: u16 },
}

// What became of a point. A cut point goes on as the point that it is cut to.
#[derive(Clone, Copy, PartialEq, Eq, Debug, Default)]
pub enum Fate {
    #[default]
    Open,
    Walked,
    Cut { to: u16 },
    Halted,
}

// A point of the record. The charge is that of the step into it, 0 at a start, in femtojoules. The default is an open point of a start
// with key 0.
#[derive(Clone, Copy, PartialEq, Eq, Debug, Default)]
pub struct Point {
    pub origin: Origin,
    pub key: u16,
    pub charge: u32,
    pub fate: Fate,
}
