ghost use Rattle.std.specs.Prelude.{◌≡◌, ◌≤◌, length, ⊤};

use std::alloc::AllocError;

// At most N values in order, in place: the library allocates nothing. The values past the count are unused.
// Why an array and a count: the kit's `ArrayVec` is not `Copy`, which a design is.
#[derive(Copy)]
pub struct Table<T: Copy, const N: usize> {
    pub values: [T; N],
    pub count: usize,
    ghost few: { count ≤ N },
}

// Why by hand: a derive of Clone is refused for a struct with a type parameter and a ghost field.
impl<T: Copy, const N: usize> Clone for Table<T, N> {
    ghost is_clone = { λ table copy. copy ≡ table };

    ghost is_infallible = { λ _. ⊤ };

    fn clone(&self) -> Result<Self, AllocError> {
        Ok(*self)
    }
}

impl<T: Copy, const N: usize> Table<T, N> {
    ghost use Rattle.design.specs.Table.{items};

    pub fn as_slice(&self) -> &[T]
        ensures items { result.now ≡ items self.now }
        ensures few { length result.now ≤ N }
    {
        &self.values[..self.count]
    }
}
