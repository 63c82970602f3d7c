// The seven bodies of a bundle that a design is read from.
#[derive(Clone, Copy)]
pub(crate) struct Bodies<'a> {
    pub cells: &'a [u8],
    pub nets: &'a [u8],
    pub rom: &'a [u8],
    pub ram: &'a [u8],
    pub wires: &'a [u8],
    pub pilots: &'a [u8],
    pub starts: &'a [u8],
}
