ghost use Rattle.std.specs.Prelude.{◌≡◌, true};
ghost use Rattle.record.specs.Record.{Meaning};
ghost use Rattle.levels.specs.declared.Tri.{Tri};
ghost use Rattle.rules.specs.Meanings.{Covering};

use levels::Tri;

// A merge rule answers two questions about a point whose key may have come before. Neither changes the rule.
pub trait Rule {
    // the answers that each question may give
    ghost meaning: { Self → Meaning Tri };

    // Whether the point is looked up among the kept states: `count` is how often the state kept under its key was replaced so
    // far, and `marked` whether its mark net may be 1.
    fn watch(&self, key: u16, count: u32, marked: bool) -> bool
        ensures { (meaning self.now).watches key count marked result ≡ true };

    // Turns the new state into one that covers both it and the kept state. The first `nets` places are nets, the others RAM bits.
    fn merge(&self, kept: &[Tri], state: &mut [Tri], nets: usize, count: u32)
        ensures { (meaning self.now).merges kept.now state.old nets count state.new ≡ true };

    ghost covers: { (rule : Self) → Covering (meaning rule) };
}
