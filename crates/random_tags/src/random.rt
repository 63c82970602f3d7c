// Numbers that look random, the same at every run.
ghost use Rattle.std.specs.Prelude.{◌<◌, T};

#[derive(Drop)]
pub struct Random {
    state: u64,
}

impl Random {
    pub fn new(seed: u64) -> Random {
        Random { state: seed | 1 }
    }

    // The next number, by shifts and sums of the state with itself.
    fn next(&mut self) -> u64 {
        let mut x = self.state;
        x ^= x >> 12;
        x ^= x << 25;
        x ^= x >> 27;
        self.state = x;
        x.wrapping_mul(0x2545_f491_4f6c_dd1d) >> 16
    }

    // A number below `count`, or 0.
    pub fn below(&mut self, count: usize) -> usize
        ensures { 0 < count → result < count }
    {
        let next = self.next() as usize;
        next.checked_rem(count).unwrap_or(0)
    }

    // A number from `low` on, and up to `high`.
    pub fn between(&mut self, low: usize, high: usize) -> usize {
        let count = high.saturating_sub(low).saturating_add(1);
        low.saturating_add(self.below(count))
    }

    // True once in so many times.
    pub fn once_in(&mut self, count: usize) -> bool {
        self.below(count) == 0
    }

    // One of the items; the default, 0 for numbers, if there is none.
    pub fn pick<T: Copy + Default>(&mut self, items: &[T]) -> T {
        let place = self.below(items.len());
        items.get(place).copied().unwrap_or_default()
    }
}
