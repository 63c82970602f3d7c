// Levels as sets of bits.
ghost use Rattle.std.specs.Prelude.{◌≡◌, ◌&&◌, ◌||◌, not, true, if◌then◌else◌};
ghost use Rattle.std.specs.Option.{option_map_or};

// A level: whether it allows 0, and whether it allows 1.
#[derive(Clone, Copy, PartialEq, Eq, Debug)]
pub struct Level {
    pub zero: bool,
    pub one: bool,
}

// The level that allows both bits.
pub(crate) const BOTH: Level = Level {
    zero: true,
    one: true,
};

// What allows no bit yet.
pub(crate) const NONE: Level = Level {
    zero: false,
    one: false,
};

// The level that allows one bit.
impl From<bool> for Level {
    ghost from_gives = { λ bit level. (level.one ≡ bit) × (level.zero ≡ not bit) };

    fn from(bit: bool) -> Level {
        Level {
            zero: !bit,
            one: bit,
        }
    }
}

// The level of a known bit, or both.
impl From<Option<bool>> for Level {
    ghost from_gives = { λ bit level. (level.one ≡ option_map_or (λ b. b) bit true) × (level.zero ≡ option_map_or (λ b. not b) bit true) };

    fn from(bit: Option<bool>) -> Level {
        bit.map_or(BOTH, Level::from)
    }
}

impl Level {
    // Does it allow this bit?
    pub fn allows(self, bit: bool) -> bool
        ensures { result ≡ (if bit then self.one else self.zero) }
    {
        if bit { self.one } else { self.zero }
    }

    // What either of two levels allows.
    pub(crate) fn or(self, other: Level) -> Level
        ensures zero { result.zero ≡ (self.zero || other.zero) }
        ensures one { result.one ≡ (self.one || other.one) }
    {
        Level {
            zero: self.zero || other.zero,
            one: self.one || other.one,
        }
    }

    // Does this level allow all that the other allows?
    pub(crate) fn covers(self, other: Level) -> bool
        ensures { result ≡ ((self.zero || not other.zero) && (self.one || not other.one)) }
    {
        (self.zero || !other.zero) && (self.one || !other.one)
    }

    // Where this level allows 1, what `at_one` allows, and where it allows 0, what `at_zero` allows.
    pub(crate) fn choose(self, at_one: Level, at_zero: Level) -> Level
        ensures zero { result.zero ≡ ((self.one && at_one.zero) || (self.zero && at_zero.zero)) }
        ensures one { result.one ≡ ((self.one && at_one.one) || (self.zero && at_zero.one)) }
    {
        let left = if self.one { at_one } else { NONE };
        let right = if self.zero { at_zero } else { NONE };
        left.or(right)
    }
}
