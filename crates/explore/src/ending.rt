// The number that each ending of a walk has.
ghost use Rattle.std.specs.Prelude.{◌≡◌};
ghost use Rattle.explore.specs.Calls.{ending_number};

use crate::answers::Ending;

impl Ending {
    // 0 if the budget is spent, 255 if no point is open, and the number of a refusal.
    pub fn number(self) -> u8
        ensures { result ≡ ending_number self }
    {
        match self {
            Ending::Spent => 0,
            Ending::Done => 255,
            Ending::Refused(refusal) => refusal.number(),
        }
    }
}
