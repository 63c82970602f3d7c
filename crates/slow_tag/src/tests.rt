use crate::read_tag;
use std::test::Fail;

// A tag with three flops, a constant 1 and a constant 0 between them, and a word of RAM.
#[rattlefmt::skip]
const FLOPS: [u8; 204] = [
    // letters, version, rows; clock 8, ROM 0, RAM 2, write 7, window 2; length 204
    0x54, 0x42, 1, 7, 8, 0, 0, 0, 2, 0, 7, 0, 2, 0, 204, 0, 0, 0,
    // rows: kind, zero, count, offset
    1, 0, 3, 0, 74, 0, 0, 0,
    2, 0, 5, 0, 104, 0, 0, 0,
    3, 0, 1, 0, 154, 0, 0, 0,
    4, 0, 1, 0, 156, 0, 0, 0,
    5, 0, 17, 0, 160, 0, 0, 0,
    6, 0, 2, 0, 194, 0, 0, 0,
    7, 0, 6, 0, 198, 0, 0, 0,
    // cells: constant 0, constant 1, flop
    0, 5, 0, 0, 0, 0, 0, 0, 0, 0,
    0, 6, 0, 0, 0, 0, 0, 0, 0, 0,
    1, 1, 0, 0, 10, 0, 8, 0, 3, 0,
    // nets: flop, constant 1, flop, constant 0, flop
    2, 0, 0, 0, 0, 0, 0, 0, 0, 0,
    1, 0, 0, 0, 0, 0, 0, 0, 0, 0,
    2, 0, 0, 0, 0, 0, 0, 0, 0, 0,
    0, 0, 0, 0, 0, 0, 0, 0, 0, 0,
    2, 0, 0, 0, 0, 0, 0, 0, 0, 0,
    // a zero word of ROM; 0x8005 in RAM, bit 1 unknown; 17 wires
    0, 0,
    5, 0x80, 2, 0,
    0, 0, 0, 0, 0, 0, 0, 0, 0, 0, 0, 0, 0, 0, 0, 0, 0, 0, 0, 0, 0, 0, 0, 0, 0, 0, 0, 0, 0, 0, 0, 0, 0, 0,
    // mark, pilot; two starts
    0, 0, 0, 0,
    0, 1, 0, 1, 2, 0,
];

#[test]
fn second_start_is_known(rt: HostRuntime) -> Result<(), Fail> {
    let heap = rt.alloc();
    let tag = read_tag(&FLOPS, heap)?;
    let known = tag.known_bits(1, heap)?;
    let mut bits = [Some(false); 21];
    bits[0] = Some(true);
    bits[1] = Some(true);
    bits[2] = None;
    bits[5] = Some(true);
    bits[6] = None;
    bits[7] = Some(true);
    bits[20] = Some(true);
    assert!(rt; known.as_slice() == bits.as_slice());
    Ok(())
}
