// Fields of a bundle: unsigned, the lowest byte first.
ghost use Rattle.std.specs.Prelude.{◌≡◌, ◌<◌, ◌≤◌, ◌-◌, ◌/◌, ◌%◌, ◌^◌, ◌==◌, ◌&&◌, nat_lt};
ghost use Rattle.slow_tag.specs.Fields.{byte_at, two_at, four_at};

// The byte at a place, 0 past the end.
pub(crate) fn byte(bytes: &[u8], at: usize) -> usize
    ensures value { result ≡ byte_at bytes.now at }
    ensures fits { result < 256 }
{
    bytes.get(at).copied().unwrap_or(0) as usize
}

pub(crate) fn two(bytes: &[u8], at: usize) -> usize
    ensures value { result ≡ two_at bytes.now at }
    ensures fits { result < 65536 }
{
    byte(bytes, at) + 256 * byte(bytes, at.saturating_add(1))
}

pub(crate) fn four(bytes: &[u8], at: usize) -> usize
    ensures value { result ≡ four_at bytes.now at }
    ensures fits { result < 4294967296 }
{
    two(bytes, at) + 65536 * two(bytes, at.saturating_add(2))
}

// Bit `place` of a number.
pub fn bit(number: usize, place: usize) -> bool
    ensures { result ≡ (nat_lt place 64 && (number / 2 ^ place % 2 == 1)) }
{
    place < 64 && (number >> place) % 2 == 1
}

// How many choices of so many bits there are, if that fits in a number; else the largest number.
pub fn choices(bits: usize) -> usize
    ensures exact { bits < 64 → result ≡ 2 ^ bits }
    ensures most { 64 ≤ bits → result ≡ 2 ^ 64 - 1 }
{
    if bits < 64 { 1 << bits } else { usize::MAX }
}
