ghost use Rattle.std.specs.Prelude.{◌≡◌, ◌+◌, ◌*◌, ◌<◌, ◌≤◌, true, leb, get_or, nat_lt, slice_index};
ghost use Rattle.model.specs.Core.{all_below};

// An entry of the key table: a key, the point that kept its state, and how often the state was replaced so far. The kept
// state stands in the stretch of the kept states that has the entry's place.
#[derive(Clone, Copy)]
pub struct Entry {
    pub key: u16,
    pub point: u16,
    pub count: u32,
}

// An exploration. The lent memory holds its points, the states of its open points and its kept states; here are the lengths that
// it was made with, and what is in use. Open points are a stack: the highest number is last, and the state of the i-th stands
// in the i-th stretch of the open states.
// Why arrays: nothing is allocated, so numbers and entries stand in place, each with its count beside. A `Table` of each would keep two
// of the facts below, few_open and few_entries; five others name a count all the same.
#[derive(Clone, Copy)]
pub struct Exploration {
    pub(crate) places: usize,
    pub(crate) point_length: usize,
    pub(crate) open_length: usize,
    pub(crate) kept_length: usize,
    pub(crate) scratch_length: usize,
    pub(crate) point_count: usize,
    pub(crate) open_count: usize,
    pub(crate) numbers: [u16; 64],
    pub(crate) entry_count: usize,
    pub(crate) entries: [Entry; 256],
    ghost some_places: { 0 < places },
    ghost few_points: { point_count ≤ 65535 },
    ghost points_inside: { point_count ≤ point_length },
    ghost few_open: { open_count ≤ 64 },
    ghost open_inside: { open_count * places ≤ open_length },
    ghost few_entries: { entry_count ≤ 256 },
    ghost entries_inside: { entry_count * places ≤ kept_length },
    ghost numbers_used: { all_below open_count (λ i. nat_lt (slice_index numbers i) point_count) ≡ true },
    ghost scratch_inside: { 2 * places + 1024 ≤ scratch_length },
    ghost open_used: { open_count ≤ point_count },
    ghost few_replaced: { all_below entry_count (λ i. leb ((get_or entries i (record { key = 0; point = 0; count = 0 })).count + open_count) point_count) ≡ true },
}
