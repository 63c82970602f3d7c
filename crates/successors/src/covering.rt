// Whether one state covers another.
ghost use Rattle.std.specs.Prelude.{◌≡◌};
ghost use Rattle.record.specs.Record.{covers, covers_all};

use levels::Level;

// Whether the kept level allows every bit that the other allows.
fn level_covers<V: Level>(kept: V, level: V) -> bool
    ensures { result ≡ covers V.kind kept level }
{
    (!level.allows(false) | kept.allows(false)) & (!level.allows(true) | kept.allows(true))
}

// Whether the kept state allows at each place every bit that the other state allows there. A state covers none of another length.
pub fn covers<V: Level>(kept: &[V], state: &[V]) -> bool
    ensures { result ≡ covers_all V.kind kept.now state.now }
{
    kept.len() == state.len()
        && kept
            .iter()
            .zip(state)
            .all(|(kept, level)| level_covers(*kept, *level))
}
