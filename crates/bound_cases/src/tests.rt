use crate::lent::{Lent, read};
use crate::steps::{Step, follow, listing};
use crate::tags::{
    RAM, RAM_EAGER, RAM_PLAIN, RAM_WORDS_EAGER, RAM_WORDS_PLAIN, REGISTER, TOGGLING,
};
use design::Design;
use explore::Ending;
use record::{Fate, Origin};
use rules::{Eager, Plain, Rule, WholeWords};
use std::alloc::Global;
use std::process::Abort;
use std::test::*;

// Takes the steps with the toggling tag under the plain rule. Its states have 21 places. Point 0 is walked into 1 and 2, then 2 into 3
// and 4, while 1 stays open; 0 and 2 have different keys and are kept; 4, 3 and 1 are cut. So all of it needs 5 points, 3 open states
// and 2 kept states, and scratch for 2 states and 1,024 more.
fn toggling(rt: &impl Abort, steps: &[Step], heap: Global) -> Result<(), Fail> {
    let design = read(rt, TOGGLING)?;
    follow(rt, &mut Lent::new(heap), &design, &Plain, steps, heap)
}

#[test]
fn toggling_tag_is_explored(rt: HostRuntime) -> Result<(), Fail> {
    toggling(
        &rt,
        &[
            Step::Lend(5, 63, 42, 1066),
            Step::Make("made"),
            Step::Start(0, "0"),
            Step::Walk(65535, "5 255"),
            Step::List(
                "0 - 0 0 walked\n1 0 0 16 cut 0\n2 0 2 26 walked\n3 2 0 24 cut 0\n4 2 2 16 cut 2\n",
            ),
            Step::Peak("26"),
            Step::Window(1, "26"),
            Step::Window(2, "50"),
            Step::Window(3, "76"),
            Step::Window(65535, "1638376"), // 26 and 24 in turn
        ],
        rt.alloc(),
    )
}

// A refused making leaves the exploration as it was, and another making forgets what was recorded.
#[test]
fn making_asks_for_memory(rt: HostRuntime) -> Result<(), Fail> {
    toggling(
        &rt,
        &[
            Step::Lend(0, 21, 21, 1066),
            Step::Make("refused 13 3 0"),
            Step::Lend(1, 21, 21, 1066),
            Step::Start(0, "refused 13 3 0"), // not made yet
            Step::Walk(9, "0 refused 13 3 0"),
            Step::Peak("refused 13 3 0"),
            Step::Window(2, "refused 13 3 0"),
            Step::Make("made"),
            Step::Start(0, "0"),
            Step::Lend(1, 20, 21, 1066),
            Step::Make("refused 13 3 0"),
            Step::Lend(1, 21, 20, 1066),
            Step::Make("refused 13 3 0"),
            Step::Lend(1, 21, 21, 1065),
            Step::Make("refused 13 3 0"),
            Step::Lend(0, 21, 21, 1066),
            Step::Make("refused 13 3 0"),
            Step::Lend(1, 21, 21, 1066),
            Step::Peak("refused 19 3 0"),
            Step::Make("made"),
            Step::Peak("refused 18 3 0"),
        ],
        rt.alloc(),
    )
}

// Every call but the making is refused for its memory, before anything else is asked: there is no start 1, and no window of 0.
fn memory_refused(
    rt: &impl Abort,
    lent: &mut Lent,
    design: &Design,
    heap: Global,
) -> Result<(), Fail> {
    let steps = &[
        Step::Start(0, "refused 13 3 0"),
        Step::Start(1, "refused 13 3 0"),
        Step::Walk(9, "0 refused 13 3 0"),
        Step::Peak("refused 13 3 0"),
        Step::Window(2, "refused 13 3 0"),
        Step::Window(0, "refused 13 3 0"),
    ];
    follow(rt, lent, design, &Plain, steps, heap)
}

// Each length has to be that of the making, and the design has to have as many places: before a start is taken, and once no point is
// open.
#[test]
fn calls_ask_for_the_memory_of_the_making(rt: HostRuntime) -> Result<(), Fail> {
    let heap = rt.alloc();
    let design = read(&rt, TOGGLING)?;
    let larger = read(&rt, RAM)?;
    let unlike = [
        (4, 63, 42, 1066),
        (6, 63, 42, 1066),
        (5, 62, 42, 1066),
        (5, 64, 42, 1066),
        (5, 63, 41, 1066),
        (5, 63, 43, 1066),
        (5, 63, 42, 1065),
        (5, 63, 42, 1067),
    ];
    let mut lent = Lent::new(heap);
    let making = &[Step::Lend(5, 63, 42, 1066), Step::Make("made")];
    let walking = &[
        Step::Lend(5, 63, 42, 1066),
        Step::Start(0, "0"),
        Step::Walk(9, "5 255"),
    ];
    for steps in [making.as_slice(), walking.as_slice()].iter() {
        follow(&rt, &mut lent, &design, &Plain, steps, heap)?;
        memory_refused(&rt, &mut lent, &larger, heap)?;
        for (points, opened, kept, scratch) in unlike.iter() {
            lent.lend(*points, *opened, *kept, *scratch)?;
            memory_refused(&rt, &mut lent, &design, heap)?;
        }
    }
    Ok(())
}

// A start may be taken twice. Its refusals name no point. It asks whether there is such a start, then for a point, then for a slot.
#[test]
fn starts_ask_for_room(rt: HostRuntime) -> Result<(), Fail> {
    toggling(
        &rt,
        &[
            Step::Lend(1, 21, 21, 1066),
            Step::Make("made"),
            Step::Start(1, "refused 14 3 0"),
            Step::Start(0, "0"),
            Step::Start(1, "refused 14 3 0"),
            Step::Start(0, "refused 16 3 0"),
            Step::Lend(1, 42, 21, 1066),
            Step::Make("made"),
            Step::Start(0, "0"),
            Step::Start(0, "refused 16 3 0"),
            Step::Lend(2, 41, 21, 1066),
            Step::Make("made"),
            Step::Start(0, "0"),
            Step::Start(1, "refused 14 3 0"),
            Step::Start(0, "refused 17 3 0"),
            Step::List("0 - 0 0 open\n"),
            Step::Lend(6, 84, 42, 1066),
            Step::Make("made"),
            Step::Start(0, "0"),
            Step::Start(0, "1"),
            Step::Walk(9, "6 255"),
            Step::List(
                "0 - 0 0 cut 1\n1 - 0 0 walked\n2 1 0 16 cut 1\n3 1 2 26 walked\n4 3 0 24 cut 1\n5 3 2 16 cut 3\n",
            ),
        ],
        rt.alloc(),
    )
}

// Point 0 needs an entry, 3 points and 2 slots. Point 2 is next, and needs a second entry, 5 points and 3 slots, its own among them.
// An entry is asked for first, then points, then slots. A walk that is refused takes no point when it is called again.
#[test]
fn walks_ask_for_room(rt: HostRuntime) -> Result<(), Fail> {
    let none = "0 - 0 0 open\n";
    let one = "0 - 0 0 walked\n1 0 0 16 open\n2 0 2 26 open\n";
    let cases = [
        (2, 63, 42, "0 refused 16 3 0", "0 refused 16 3 0", none),
        (3, 63, 42, "1 refused 16 3 2", "0 refused 16 3 2", one),
        (4, 63, 42, "1 refused 16 3 2", "0 refused 16 3 2", one),
        (5, 41, 42, "0 refused 17 3 0", "0 refused 17 3 0", none),
        (5, 42, 42, "1 refused 17 3 2", "0 refused 17 3 2", one),
        (5, 62, 42, "1 refused 17 3 2", "0 refused 17 3 2", one),
        (5, 63, 41, "1 refused 15 3 2", "0 refused 15 3 2", one),
        (2, 41, 42, "0 refused 16 3 0", "0 refused 16 3 0", none),
        (4, 62, 42, "1 refused 16 3 2", "0 refused 16 3 2", one),
        (4, 62, 41, "1 refused 15 3 2", "0 refused 15 3 2", one),
    ];
    for (points, opened, kept, refused, again, list) in cases.iter() {
        let steps = [
            Step::Lend(*points, *opened, *kept, 1066),
            Step::Make("made"),
            Step::Start(0, "0"),
            Step::Walk(9, refused),
            Step::Walk(9, again),
            Step::List(list),
        ];
        toggling(&rt, &steps, rt.alloc())?;
    }
    Ok(())
}

// At most 64 open states, 256 entries and 65,535 points, however much memory there is. A state of the register has 28 places.
#[test]
fn room_is_limited(rt: HostRuntime) -> Result<(), Fail> {
    let heap = rt.alloc();
    let design = read(&rt, REGISTER)?;
    let mut lent = Lent::new(heap);
    lent.lend(400, 28 * 65, 28 * 257, 1080)?;
    lent.make(&rt, &design)??;
    for number in 0..64 {
        assert_eq!(rt; lent.start(&rt, &design, 0)??, number);
    }
    let steps = &[
        Step::Start(0, "refused 17 3 0"),
        Step::Make("made"),
        Step::Start(0, "0"),
        Step::Walk(65535, "256 refused 15 3 256"),
    ];
    follow(&rt, &mut lent, &design, &Eager, steps, heap)?;
    let steps = &[
        Step::Lend(65536, 28, 28, 1080),
        Step::Make("made"),
        Step::Start(0, "0"),
        Step::Walk(65535, "65534 refused 16 3 65534"),
        Step::Start(0, "refused 16 3 0"),
    ];
    follow(&rt, &mut lent, &design, &Plain, steps, heap)
}

// Walk, peak and window ask for a start. Then peak and window ask that no point is open, and name the lowest that is. The window asks
// for its width after that.
#[test]
fn figures_ask_for_a_whole_exploration(rt: HostRuntime) -> Result<(), Fail> {
    toggling(
        &rt,
        &[
            Step::Lend(6, 63, 42, 1066),
            Step::Make("made"),
            Step::Walk(9, "0 refused 18 3 0"),
            Step::Walk(0, "0 refused 18 3 0"),
            Step::Peak("refused 18 3 0"),
            Step::Window(2, "refused 18 3 0"),
            Step::Window(0, "refused 18 3 0"),
            Step::Start(0, "0"),
            Step::Peak("refused 19 3 0"),
            Step::Window(2, "refused 19 3 0"),
            Step::Window(0, "refused 19 3 0"),
            Step::Walk(1, "1 0"),
            Step::Peak("refused 19 3 1"),
            Step::Walk(3, "3 0"),
            Step::Peak("refused 19 3 1"),
            Step::Window(0, "refused 19 3 1"),
            Step::Walk(1, "1 255"),
            Step::Peak("26"),
            Step::Window(0, "refused 20 3 0"),
            Step::Window(1, "26"),
            Step::Start(0, "5"),
            Step::Peak("refused 19 3 5"),
            Step::Window(1, "refused 19 3 5"),
        ],
        rt.alloc(),
    )
}

// Each row has to be at least as long as the points in use, however many more there is memory for.
#[test]
fn window_asks_for_rows(rt: HostRuntime) -> Result<(), Fail> {
    toggling(
        &rt,
        &[
            Step::Lend(6, 63, 42, 1066),
            Step::Rows(0, 0),
            Step::Make("made"),
            Step::Window(2, "refused 18 3 0"),
            Step::Start(0, "0"),
            Step::Window(2, "refused 13 3 0"),
            Step::Rows(1, 1),
            Step::Window(2, "refused 19 3 0"),
            Step::Walk(9, "5 255"),
            Step::Rows(4, 5),
            Step::Window(2, "refused 13 3 0"),
            Step::Window(0, "refused 13 3 0"),
            Step::Rows(5, 4),
            Step::Window(2, "refused 13 3 0"),
            Step::Rows(5, 5),
            Step::Window(2, "50"),
            Step::Rows(5, 9),
            Step::Window(3, "76"),
        ],
        rt.alloc(),
    )
}

// Of 5 points, point 4 is the last that a record may name, though there is memory for a sixth. A peak follows no path.
#[test]
fn window_asks_for_whole_records(rt: HostRuntime) -> Result<(), Fail> {
    toggling(
        &rt,
        &[
            Step::Lend(6, 63, 42, 1066),
            Step::Make("made"),
            Step::Start(0, "0"),
            Step::Walk(9, "5 255"),
            Step::Write(1, Origin::From { point: 0 }, Fate::Cut { to: 5 }),
            Step::Window(2, "refused 21 3 1"),
            Step::Window(0, "refused 20 3 0"),
            Step::Peak("26"),
            Step::Write(3, Origin::From { point: 5 }, Fate::Walked),
            Step::Window(2, "refused 21 3 1"),
            Step::Write(1, Origin::From { point: 0 }, Fate::Cut { to: 4 }),
            Step::Window(2, "refused 21 3 3"),
            Step::Write(3, Origin::From { point: 4 }, Fate::Walked),
            Step::Window(2, "42"), // 0 to 2 and 2 to 4
            Step::Write(0, Origin::From { point: 5 }, Fate::Walked),
            Step::Window(2, "refused 21 3 0"),
            Step::Start(0, "5"), // now point 5 is in use
            Step::Write(0, Origin::From { point: 6 }, Fate::Walked),
            Step::Window(2, "refused 19 3 5"),
            Step::Walk(1, "1 255"),
            Step::Window(2, "refused 21 3 0"),
        ],
        rt.alloc(),
    )
}

// Explores the RAM tag, so many points at a time: how many were taken. Its states have 79 places.
fn walk_by<R: Rule>(
    rt: &impl Abort,
    lent: &mut Lent,
    design: &Design,
    rule: &R,
    budget: u16,
    heap: Global,
) -> Result<usize, Fail> {
    let steps = &[
        Step::Lend(40, 79 * 10, 79 * 8, 1182),
        Step::Make("made"),
        Step::Start(0, "0"),
    ];
    follow(rt, lent, design, rule, steps, heap)?;
    let mut all: usize = 0;
    for _walk in 0..40 {
        let (taken, ending) = lent.walk(rt, design, rule, budget)?;
        all = all.wrapping_add(taken);
        if ending == Ending::Done {
            return Ok(all);
        }
        assert!(rt; taken == budget as usize && ending == Ending::Spent);
    }
    Err(Fail::new("still open"))
}

// A walk in parts, each of which spends its budget until no point is open, takes as many points as one walk and leaves the same.
fn parts_agree<R: Rule>(
    rt: &impl Abort,
    design: &Design,
    rule: &R,
    heap: Global,
) -> Result<(), Fail> {
    let mut whole = Lent::new(heap);
    let all = walk_by(rt, &mut whole, design, rule, 65535, heap)?;
    for budget in 1..4 {
        let mut parts = Lent::new(heap);
        assert_eq!(rt; walk_by(rt, &mut parts, design, rule, budget, heap)?, all);
        assert!(rt; parts.equals(&whole));
    }
    Ok(())
}

#[test]
fn walks_may_be_parted(rt: HostRuntime) -> Result<(), Fail> {
    toggling(
        &rt,
        &[
            Step::Lend(5, 63, 42, 1066),
            Step::Make("made"),
            Step::Start(0, "0"),
            Step::Walk(0, "0 0"),
            Step::Walk(1, "1 0"),
            Step::Walk(2, "2 0"),
            Step::Walk(1, "1 0"),
            Step::Walk(1, "1 255"),
            Step::Walk(0, "0 255"),
            Step::List(
                "0 - 0 0 walked\n1 0 0 16 cut 0\n2 0 2 26 walked\n3 2 0 24 cut 0\n4 2 2 16 cut 2\n",
            ),
        ],
        rt.alloc(),
    )?;
    let design = read(&rt, RAM)?;
    parts_agree(&rt, &design, &Plain, rt.alloc())?;
    parts_agree(&rt, &design, &WholeWords { rule: Eager }, rt.alloc())
}

// The RAM tag explored under a rule is listed so, with the head that the program `bound` writes.
fn lists<R: Rule>(
    rt: &impl Abort,
    design: &Design,
    rule: &R,
    expected: &str,
    heap: Global,
) -> Result<(), Fail> {
    let mut lent = Lent::new(heap);
    let taken = walk_by(rt, &mut lent, design, rule, 65535, heap)?;
    let points = lent.exploration.point_count();
    let open = lent.exploration.open_count();
    assert_eq!(rt; taken, points);
    let peak = u64::from(lent.peak(rt, design)??);
    let power = peak * u64::from(design.clock());
    let window = design.window();
    let energy = lent.window(rt, design, window)??;
    let lines = listing(&lent, heap)?;
    let text = format!(in heap;
        "points {points} open {open} peak {peak} power {power} window {window} energy {energy}\n{lines}"
    )?;
    assert_eq!(rt; text.as_str(), expected);
    Ok(())
}

#[test]
fn rules_explore_as_listed(rt: HostRuntime) -> Result<(), Fail> {
    let design = read(&rt, RAM)?;
    lists(&rt, &design, &Plain, RAM_PLAIN, rt.alloc())?;
    lists(&rt, &design, &Eager, RAM_EAGER, rt.alloc())?;
    lists(
        &rt,
        &design,
        &WholeWords { rule: Plain },
        RAM_WORDS_PLAIN,
        rt.alloc(),
    )?;
    lists(
        &rt,
        &design,
        &WholeWords { rule: Eager },
        RAM_WORDS_EAGER,
        rt.alloc(),
    )
}
