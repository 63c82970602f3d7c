ghost use Rattle.std.specs.Prelude.{◌≡◌, ◌≤◌};
ghost use Rattle.explore.specs.Steps.{entries_after};

// What becomes of an open point: it halts, it is cut, or it is walked and its state is not kept, kept as a new entry, or kept in
// place of an entry's state, which is then replaced so often.
#[derive(Clone, Copy)]
pub(crate) enum Plan {
    Halt,
    Cut { to: u16 },
    Pass,
    Add,
    Replace { entry: usize, count: u32 },
}

impl Plan {
    // How many entries there are once the plan's is written.
    pub(crate) fn entries_after(self, count: usize) -> usize
        requires { count ≤ 256 }
        ensures { result ≡ entries_after self count }
    {
        match self {
            Plan::Add => count + 1,
            Plan::Halt | Plan::Cut { .. } | Plan::Pass | Plan::Replace { .. } => count,
        }
    }
}
