use bundle::{Fault, Refusal};
use console::places_within;
use decode::read_design;
use design::Design;
use levels::Bit;
use player::{Buffers, Cycle, play};
use random_tags::Parts;
use std::alloc::Global;
use std::process::Abort;
use std::test::Fail;

// What reading the bundle of these parts answers.
fn read(parts: &Parts, heap: Global) -> Result<Result<(), Refusal>, Fail> {
    let bytes = parts.bundle(heap)?;
    let mut design = Design::new();
    Ok(read_design(&mut design, &bytes))
}

fn refused(
    rt: &impl Abort,
    parts: &Parts,
    heap: Global,
    fault: Fault,
    place: usize,
) -> Result<(), Fail> {
    assert!(rt; read(parts, heap)? == Err(Refusal { fault, place }));
    Ok(())
}

fn taken(rt: &impl Abort, parts: &Parts, heap: Global) -> Result<(), Fail> {
    assert!(rt; read(parts, heap)?.is_ok());
    Ok(())
}

// The cycles of a run over these lines, or its refusal.
fn run(
    rt: &impl Abort,
    parts: &Parts,
    text: &[u8],
    heap: Global,
) -> Result<Result<Vec<Cycle>, Refusal>, Fail> {
    let bytes = parts.bundle(heap)?;
    let mut design = Design::new();
    assert!(rt; read_design(&mut design, &bytes).is_ok());
    let mut state = vec![in heap; Bit::Zero; design.places()]?;
    let mut scratch = vec![in heap; Bit::Zero; 4096]?;
    let mut cycles = vec![in heap; Cycle { key: 0, energy: 0 }; text.len()]?;
    let mut buffers = Buffers {
        state: &mut state,
        scratch: &mut scratch,
        cycles: &mut cycles,
    };
    match play(&design, text, &mut buffers) {
        Ok(count) => {
            cycles.truncate(count);
            Ok(Ok(cycles))
        }
        Err(refusal) => Ok(Err(refusal)),
    }
}

// The cycles of a run that is not refused.
fn played(rt: &impl Abort, parts: &Parts, text: &[u8], heap: Global) -> Result<Vec<Cycle>, Fail> {
    run(rt, parts, text, heap)?.map_err(|_| Fail::new("refused"))
}

// The line of this number is refused.
fn line_refused(
    rt: &impl Abort,
    parts: &Parts,
    text: &[u8],
    heap: Global,
    place: usize,
) -> Result<(), Fail> {
    let refusal = Refusal {
        fault: Fault::Lines,
        place,
    };
    assert!(rt; run(rt, parts, text, heap)?.err() == Some(refusal));
    Ok(())
}

// Each cycle draws 9 idle: 3 for each flop, 1 for the XOR, 2 for the RAM. The input rises for 2 and falls for 1, the flop
// for 10 and 8, the XOR for 5 and 4. From input 0, flop 0, XOR 0:
//   line 1: input rises, flop takes 0, XOR rises           9 + 2 + 5      = 16, flop 0
//   line 1: flop takes 1 and rises, XOR of 1 and 1 falls    9 + 10 + 4     = 23, flop 1, so the key is 2
//   line 0: input falls, flop takes 0 and falls, XOR is 0   9 + 1 + 8      = 18, flop 0
//   line 1: input rises, XOR rises                          9 + 2 + 5      = 16, flop 0
//   line 0: input falls, flop rises, XOR of 1 and 0 stays   9 + 1 + 10     = 20, flop 1
//   line 0: flop takes 1 and stays, nothing changes         9              =  9, flop 1
//   line 1: input rises, XOR of 1 and 1 falls               9 + 2 + 4      = 15, flop 1
#[test]
fn toggling_tag_plays(rt: HostRuntime) -> Result<(), Fail> {
    let parts = Parts::toggling(rt.alloc())?;
    let cycles = played(&rt, &parts, b"1\n1\n0\n1\n0\n0\n1\n", rt.alloc())?;
    let worked = [(0, 16), (2, 23), (0, 18), (0, 16), (2, 20), (2, 9), (2, 15)];
    assert_eq!(rt; cycles.len(), worked.len());
    for (cycle, (key, energy)) in cycles.iter().zip(&worked) {
        assert_eq!(rt; cycle.key, *key);
        assert_eq!(rt; cycle.energy, *energy);
    }
    Ok(())
}

// With the XOR as the halt flop's data, the tag halts in the cycle after the XOR is 1; that cycle is the last one played. From
// a start whose halt flop is 1 no cycle is played.
#[test]
fn halting_ends_the_run(rt: HostRuntime) -> Result<(), Fail> {
    let mut parts = Parts::toggling(rt.alloc())?;
    assert!(rt; parts.nets.len() == 50 && parts.starts.len() == 2);
    parts.nets[22] = 4;
    let cycles = played(&rt, &parts, b"0\n1\n0\n0\n0\n", rt.alloc())?;
    assert_eq!(rt; cycles.len(), 3);
    assert_eq!(rt; cycles.last().copied(), Some(Cycle { key: 3, energy: 30 }));
    parts.starts[0] = 1;
    let cycles = played(&rt, &parts, b"0\n", rt.alloc())?;
    assert_eq!(rt; cycles.len(), 0);
    Ok(())
}

#[test]
fn lines_have_to_be_whole(rt: HostRuntime) -> Result<(), Fail> {
    let parts = Parts::toggling(rt.alloc())?;
    let heap = rt.alloc();
    assert!(rt; run(&rt, &parts, b"", heap)?.is_ok());
    line_refused(&rt, &parts, b"1\n0", heap, 1)?;
    line_refused(&rt, &parts, b"\n", heap, 0)?;
    line_refused(&rt, &parts, b"1\n0\n00\n", heap, 2)?;
    line_refused(&rt, &parts, b"1\n2\n", heap, 1)
}

#[test]
fn cells_and_starts_at_their_limits(rt: HostRuntime) -> Result<(), Fail> {
    let heap = rt.alloc();
    let mut parts = Parts::toggling(heap)?;
    let constant = [0, 5, 0, 0, 0, 0, 0, 0, 0, 0];
    for _ in 4..64 {
        parts.cells.extend_from_slice(&constant)?;
    }
    taken(&rt, &parts, heap)?;
    parts.cells.extend_from_slice(&constant)?;
    refused(&rt, &parts, heap, Fault::Cells, 0)?;
    let mut parts = Parts::toggling(heap)?;
    for _ in 1..8 {
        parts.starts.extend_from_slice(&[0, 1])?;
    }
    taken(&rt, &parts, heap)?;
    parts.starts.extend_from_slice(&[0, 1])?;
    refused(&rt, &parts, heap, Fault::Starts, 0)
}

// Bytes of the toggling tag's bundle with other values, the first bad entry that they make, and where.
#[derive(Clone, Copy)]
struct Case<'a> {
    changes: &'a [(usize, u8)],
    fault: Fault,
    place: usize,
}

fn changed(changes: &[(usize, u8)], fault: Fault, place: usize) -> Case<'_> {
    Case {
        changes,
        fault,
        place,
    }
}

// The cells begin at byte 74, the nets at 114, the RAM at 166, the wires at 170, the pilots at 204, the starts at 210.
#[test]
fn entries_are_checked(rt: HostRuntime) -> Result<(), Fail> {
    let parts = Parts::toggling(rt.alloc())?;
    let cases = [
        changed(&[(4, 201)], Fault::Figures, 0),
        changed(&[(12, 0)], Fault::Figures, 0),
        changed(&[(106, 0x16)], Fault::Cells, 3), // a truth bit that two pins do not reach
        changed(&[(156, 4)], Fault::Nets, 4), // a gate that names itself
        changed(&[(156, 5)], Fault::Nets, 4), // no such net
        changed(&[(166, 4), (168, 4)], Fault::Words, 0), // a RAM bit that is 1 and unknown
        changed(&[(202, 5)], Fault::Wires, 16),
        changed(&[(208, 2)], Fault::Pilots, 2), // the second of two equal pilots
        changed(&[(208, 1)], Fault::Pilots, 2), // no flop
        changed(&[(211, 2)], Fault::Starts, 1), // a pilot that is not known
        changed(&[(211, 3)], Fault::Starts, 1), // no level
    ];
    for case in &cases {
        let mut bytes = parts.bundle(rt.alloc())?;
        for (at, value) in case.changes {
            if let Some(byte) = bytes.get_mut(*at) {
                *byte = *value;
            }
        }
        let mut design = Design::new();
        let refusal = Refusal {
            fault: case.fault,
            place: case.place,
        };
        assert!(rt; read_design(&mut design, &bytes) == Err(refusal));
    }
    Ok(())
}

// Five nets and 64 RAM words have 5 + 1,024 places, with 32 words 517.
#[test]
fn large_cores_are_not_played(rt: HostRuntime) -> Result<(), Fail> {
    let heap = rt.alloc();
    let mut parts = Parts::toggling(heap)?;
    parts.ram = vec![in heap; 0; 4 * 32]?;
    parts.wires = vec![in heap; 0; 2 * 22]?;
    let mut design = Design::new();
    assert!(rt; read_design(&mut design, &parts.bundle(heap)?).is_ok());
    assert!(rt; places_within(&design) == Ok(517));
    parts.ram = vec![in heap; 0; 4 * 64]?;
    parts.wires = vec![in heap; 0; 2 * 23]?;
    assert!(rt; read_design(&mut design, &parts.bundle(heap)?).is_ok());
    let refusal = Refusal {
        fault: Fault::Memory,
        place: 0,
    };
    assert!(rt; places_within(&design) == Err(refusal));
    Ok(())
}
