// Cases worked out by hand, shown of the definitions that the contracts use.
#![tactic(auto)]

ghost use Rattle.worked.specs.Worked.{WorkedCases};

// What the definitions give on small cases that can be worked out by hand, and on the toggling tag, from its 212 bytes to its
// points, peak and window.
pub fn worked_cases() -> u8
    ensures { WorkedCases }
{
    0
}
