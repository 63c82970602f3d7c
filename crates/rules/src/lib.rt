// Merge rules: whether a point is looked up among the kept states, and which state covers both the kept and the new one.
#![tactic(auto)]

mod eager;
mod laws;
mod plain;
mod rule;
mod words;

pub use eager::Eager;
pub use laws::{named_rules_are_exact, plain_is_least, whole_words_are_exact};
pub use plain::Plain;
pub use rule::Rule;
pub use words::WholeWords;

#[cfg(test)]
mod tests {
    use super::*;
    use levels::Tri;

    const ZERO: Tri = Tri::Zero;

    const ONE: Tri = Tri::One;

    const X: Tri = Tri::X;

    #[test]
    fn plain_joins_places(rt: HostRuntime) {
        let kept = [ZERO, ONE, X, ONE];
        let mut state = [ZERO, ZERO, ONE, ONE, ONE];
        Plain.merge(&kept, &mut state, 5, 0);
        assert!(rt; state == [ZERO, X, X, ONE, ONE]);
        assert!(rt; Plain.watch(2, 0, true) && !Plain.watch(2, 0, false));
    }

    #[test]
    fn eager_forgets_ram(rt: HostRuntime) {
        let kept = [ZERO, ONE, ZERO, ONE];
        let mut same = [ONE, ONE, ZERO, ONE];
        Eager.merge(&kept, &mut same, 2, 0);
        assert!(rt; same == [X, ONE, ZERO, ONE]);
        let mut other = [ONE, ONE, ZERO, ZERO];
        Eager.merge(&kept, &mut other, 2, 0);
        assert!(rt; other == [X, ONE, X, X]);
        assert!(rt; Eager.watch(2, 0, false));
    }

    #[test]
    fn words_become_whole(rt: HostRuntime) {
        let mut kept = [ZERO; 35];
        kept[19] = X;
        let mut state = kept;
        state[0] = ONE;
        let rule = WholeWords { rule: Eager };
        rule.merge(&kept, &mut state, 1, 0);
        assert!(rt; state[0..1] == [X] && state[1..17] == [ZERO; 16]);
        assert!(rt; state[17..33] == [X; 16] && state[33..35] == [ZERO; 2]);
        assert!(rt; rule.watch(2, 0, false));
    }
}
