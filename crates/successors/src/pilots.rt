// The pilots of a state: set to a key, counted, and split into keys.
ghost use Rattle.std.specs.Prelude.{◌≡◌, ◌<◌, ◌≤◌, length};
ghost use Rattle.model.specs.Cycle.{at};
ghost use Rattle.record.specs.Record.{keyed, unknowns, choice_key, is_unknown};
ghost use Rattle.successors.specs.Lent.{Within};

use levels::Level;

// Every pilot at its bit of the key, the first at the lowest.
pub(crate) fn set_pilots<V: Level>(pilots: &[u16], key: u16, state: &mut [V])
    requires { Within pilots.now state.old }
    ensures { state.new ≡ keyed V.kind pilots.now key state.old }
{
    // Why halved: with `key >> i` this function too would ask for at most 16 pilots.
    let mut bits = key;
    for pilot in pilots {
        state[*pilot as usize] = V::of_bit(bits % 2 == 1);
        bits /= 2;
    }
}

// The level of a pilot.
fn level_at<V: Level>(state: &[V], pilot: u16) -> V
    requires { pilot < length state.now }
    ensures { result ≡ at V.kind state.now pilot }
{
    state[pilot as usize]
}

fn is_unknown<V: Level>(level: V) -> bool
    ensures { result ≡ is_unknown V.kind level }
{
    level.allows(false) & level.allows(true)
}

// How many pilots may be either bit.
pub(crate) fn count_unknown<V: Level>(pilots: &[u16], state: &[V]) -> usize
    requires within { Within pilots.now state.now }
    requires few { length pilots.now ≤ 16 }
    ensures value { result ≡ unknowns V.kind pilots.now state.now }
    ensures bound { result ≤ 16 }
{
    pilots
        .iter()
        .filter(|pilot| is_unknown(level_at(state, **pilot)))
        .count()
}

// Why two: a key of the engine has its bits at the same weights; a function for both would be public, for the one line of a shift.
// The key of a choice: the bits of the choice go to the unknown pilots in turn, the lowest first, and a known pilot has its own.
pub(crate) fn choice_key<V: Level>(pilots: &[u16], state: &[V], choice: u32) -> u16
    requires within { Within pilots.now state.now }
    requires few { length pilots.now ≤ 16 }
    ensures { result ≡ choice_key V.kind pilots.now state.now choice }
{
    let mut key = 0;
    let mut bits = choice;
    for (i, pilot) in pilots.iter().enumerate() {
        let level = level_at(state, *pilot);
        let mut bit = level.allows(true);
        if is_unknown(level) {
            bit = bits % 2 == 1;
            bits /= 2;
        }
        key += u16::from(bit) << i;
    }
    key
}
