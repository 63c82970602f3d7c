use bundle::Refusal;

// How a walk ends: its budget is spent, no point is open, or a point is refused.
#[derive(Clone, Copy, PartialEq, Debug)]
pub enum Ending {
    Spent,
    Done,
    Refused(Refusal),
}

// The two figures of an exploration, in femtojoules: the most that one cycle draws, and the most that so many successive cycles
// draw.
#[derive(Clone, Copy, PartialEq, Debug)]
pub struct Figures {
    pub peak: u32,
    pub window: u64,
}
