// The two rows of sums that a window is figured through.

// Two lent rows, which may hold anything.
#[derive(Drop)]
pub struct Rows<'a> {
    pub row: &'a mut [u64],
    pub other: &'a mut [u64],
}
