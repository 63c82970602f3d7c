use crate::body::Body;
use crate::bundle::Bundle;
use crate::header::Header;
use crate::refusal::{Fault, Refusal};
use crate::row::Row;
use std::test::Fail;

// A tag with a flop that an input toggles, and a halt flop that holds 0.
#[rattlefmt::skip]
const TOGGLING: [u8; 212] = [
    // letters, version, rows; clock 8, ROM 0, RAM 2, write 7, window 2; length 212
    0x54, 0x42, 1, 7, 8, 0, 0, 0, 2, 0, 7, 0, 2, 0, 212, 0, 0, 0,
    // rows: kind, zero, count, offset
    1, 0, 4, 0, 74, 0, 0, 0,
    2, 0, 5, 0, 114, 0, 0, 0,
    3, 0, 1, 0, 164, 0, 0, 0,
    4, 0, 1, 0, 166, 0, 0, 0,
    5, 0, 17, 0, 170, 0, 0, 0,
    6, 0, 3, 0, 204, 0, 0, 0,
    7, 0, 2, 0, 210, 0, 0, 0,
    // cells: constant 0, input, flop, XOR
    0, 5, 0, 0, 0, 0, 0, 0, 0, 0,
    0, 3, 0, 0, 2, 0, 1, 0, 0, 0,
    1, 1, 0, 0, 10, 0, 8, 0, 3, 0,
    2, 0, 6, 0, 5, 0, 4, 0, 1, 0,
    // nets: constant, input, halt flop, flop of net 4, XOR of nets 3 and 1
    0, 0, 0, 0, 0, 0, 0, 0, 0, 0,
    1, 0, 0, 0, 0, 0, 0, 0, 0, 0,
    2, 0, 0, 0, 0, 0, 0, 0, 0, 0,
    2, 0, 4, 0, 0, 0, 0, 0, 0, 0,
    3, 0, 3, 0, 1, 0, 0, 0, 0, 0,
    // one zero word of ROM and of RAM, 17 wires
    0, 0,
    0, 0, 0, 0,
    0, 0, 0, 0, 0, 0, 0, 0, 0, 0, 0, 0, 0, 0, 0, 0, 0, 0, 0, 0, 0, 0, 0, 0, 0, 0, 0, 0, 0, 0, 0, 0, 0, 0,
    // mark, pilots; a start
    4, 0, 2, 0, 3, 0,
    0, 0,
];

fn refusal(bytes: &[u8]) -> Option<Refusal> {
    Bundle::open(bytes).err()
}

fn at(fault: Fault, place: usize) -> Option<Refusal> {
    Some(Refusal { fault, place })
}

// What is said of the tag with another value in one byte.
fn refusal_with(index: usize, value: u8) -> Option<Refusal> {
    let mut bytes = TOGGLING;
    if index < bytes.len() {
        bytes[index] = value;
    }
    refusal(&bytes)
}

// Seven empty bodies and one of three bytes and of this kind.
fn with_eighth_row(kind: u8) -> [u8; 85] {
    let mut bytes = [0; 85];
    bytes[0] = 0x54;
    bytes[1] = 0x42;
    bytes[2] = 1;
    bytes[3] = 8;
    bytes[14] = 85;
    for i in 0u8..8 {
        let start = 18 + 8 * i as usize;
        bytes[start] = i + 1;
        bytes[start + 4] = 82;
    }
    bytes[74] = kind;
    bytes[76] = 3;
    bytes[82] = 7;
    bytes
}

#[test]
fn toggling_tag_opens(rt: HostRuntime) -> Result<(), Fail> {
    let bundle = Bundle::open(&TOGGLING)?;
    assert_eq!(rt;
        bundle.header(),
        Header {
            rows: 7,
            clock: 8,
            rom_energy: 0,
            ram_energy: 2,
            write_energy: 7,
            window: 2,
            length: 212,
        }
    );
    match bundle.body(0) {
        Some(Body::Cells(cells)) => assert!(rt; cells.len() == 40),
        _ => unreachable(),
    }
    match bundle.body(5) {
        Some(Body::Pilots(pilots)) => assert!(rt; pilots == [4, 0, 2, 0, 3, 0].as_slice()),
        _ => unreachable(),
    }
    assert!(rt; bundle.body(7).is_none());
    Ok(())
}

#[test]
fn length_must_match(rt: HostRuntime) {
    assert_eq!(rt; refusal(&TOGGLING[0..211]), at(Fault::Length, 0));
    let mut longer = [0; 213];
    longer[0..212].copy_from_slice(&TOGGLING);
    assert_eq!(rt; refusal(&longer), at(Fault::Length, 0));
}

#[test]
fn header_is_asked_first(rt: HostRuntime) {
    assert_eq!(rt; refusal(&[]), at(Fault::Header, 0));
    assert_eq!(rt; refusal(&TOGGLING[0..17]), at(Fault::Header, 0));
    assert_eq!(rt; refusal(&TOGGLING[0..18]), at(Fault::Length, 0));
    assert_eq!(rt; refusal_with(1, 0x43), at(Fault::Header, 0));
    assert_eq!(rt; refusal_with(2, 2), at(Fault::Header, 0));
}

#[test]
fn rows_are_seven_to_thirty_two_and_inside(rt: HostRuntime) {
    assert_eq!(rt; refusal_with(3, 6), at(Fault::Rows, 0));
    assert_eq!(rt; refusal_with(3, 33), at(Fault::Rows, 0));
    assert_eq!(rt; refusal_with(3, 32), at(Fault::Rows, 24));
    assert_eq!(rt;
        Row::read(&TOGGLING, 6),
        Some(Row {
            kind: 7,
            zero: 0,
            count: 2,
            offset: 210,
        })
    );
    assert_eq!(rt; Row::read(&TOGGLING, 24), None);
    assert_eq!(rt; Row::read(&TOGGLING, usize::MAX), None);
}

#[test]
fn kinds_are_in_order(rt: HostRuntime) {
    assert_eq!(rt; refusal_with(18 + 8 * 2, 4), at(Fault::Kinds, 2));
    assert_eq!(rt; refusal_with(18 + 8 * 6 + 1, 1), at(Fault::Kinds, 6));
    assert_eq!(rt; refusal(&with_eighth_row(127)), at(Fault::Kinds, 7));
    assert_eq!(rt; refusal(&with_eighth_row(8)), at(Fault::Kinds, 7));
}

#[test]
fn bodies_stand_one_after_the_other(rt: HostRuntime) {
    assert_eq!(rt; refusal_with(18 + 8 * 3 + 4, 167), at(Fault::Bodies, 3));
    assert_eq!(rt; refusal_with(18 + 4, 73), at(Fault::Bodies, 0));
    assert_eq!(rt; refusal_with(18 + 8 * 6 + 2, 1), at(Fault::Bodies, 6));
}

#[test]
fn eighth_body_is_skipped(rt: HostRuntime) -> Result<(), Fail> {
    let bytes = with_eighth_row(200);
    let bundle = Bundle::open(&bytes)?;
    match bundle.body(7) {
        Some(Body::Skipped(stretch)) => {
            assert!(rt; stretch == [7, 0, 0].as_slice());
            Ok(())
        },
        _ => Err(Fail::new("the eighth body is not skipped")),
    }
}

#[test]
fn refusals_are_numbered(rt: HostRuntime) {
    let refused = Refusal {
        fault: Fault::Bodies,
        place: 3,
    };
    assert_eq!(rt; refused.number(), 5);
    assert_eq!(rt; refused.layer(), 1);
    assert_eq!(rt;
        Refusal {
            fault: Fault::Starts,
            place: 0,
        }
        .layer(),
        2
    );
    assert_eq!(rt;
        Refusal {
            fault: Fault::Lines,
            place: 0,
        }
        .number(),
        22
    );
}
