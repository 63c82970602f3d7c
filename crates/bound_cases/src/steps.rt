use crate::lent::Lent;
use bundle::Refusal;
use design::Design;
use explore::Ending;
use record::{Fate, Origin};
use rules::Rule;
use std::alloc::Global;
use std::fmt::Display;
use std::process::Abort;
use std::test::*;

// A change of what is lent, or a call and what it has to answer, as text. A refusal reads `refused`, number, layer, place. A walk
// answers how many points it took, then 0 if its budget is spent, 255 if no point is open, or the refusal.
#[derive(Clone, Copy)]
pub(crate) enum Step {
    // points, and open, kept and scratch places
    Lend(usize, usize, usize, usize),
    Rows(usize, usize),
    // a record with another origin and fate
    Write(usize, Origin, Fate),
    Make(&'static str),
    Start(usize, &'static str),
    Walk(u16, &'static str),
    Peak(&'static str),
    Window(u16, &'static str),
    // the points in use, as the programs list them
    List(&'static str),
}

fn said<T: Display + Drop>(answer: Result<T, Refusal>, heap: Global) -> Result<String, Fail> {
    match answer {
        Ok(value) => Ok(format!(in heap; "{value}")?),
        Err(refusal) => Ok(format!(in heap; "{refusal}")?),
    }
}

fn walk_said(answer: (usize, Ending), heap: Global) -> Result<String, Fail> {
    let (taken, ending) = answer;
    let number = ending.number();
    match ending {
        Ending::Refused(refusal) => Ok(format!(in heap; "{taken} {refusal}")?),
        _ => Ok(format!(in heap; "{taken} {number}")?),
    }
}

pub(crate) fn listing(lent: &Lent, heap: Global) -> Result<String, Fail> {
    let mut text = String::new(heap);
    let count = lent.exploration.point_count();
    for (number, point) in lent.memory.points.iter().enumerate().take(count) {
        let origin = point.origin;
        let key = point.key;
        let charge = point.charge;
        let fate = point.fate;
        let line = format!(in heap; "{number} {origin} {key} {charge} {fate}\n")?;
        text.push_str(&line)?;
    }
    Ok(text)
}

// Holds what a step answered against what it has to; a failure says which step it was.
fn answers(rt: &impl Abort, step: usize, text: String, expected: &str) -> Result<(), Fail> {
    assert_eq!(rt; text.as_str(), expected, "step {step}");
    Ok(())
}

fn take_step<R: Rule>(
    rt: &impl Abort,
    lent: &mut Lent,
    design: &Design,
    rule: &R,
    step: Step,
    heap: Global,
    place: usize,
) -> Result<(), Fail> {
    match step {
        Step::Lend(points, opened, kept, scratch) => lent.lend(points, opened, kept, scratch),
        Step::Rows(row, other) => lent.lend_rows(row, other),
        Step::Write(number, origin, fate) => lent.write(number, origin, fate),
        Step::Make(text) => {
            let made = lent.make(rt, design)?.map(|()| "made");
            answers(rt, place, said(made, heap)?, text)
        }
        Step::Start(number, text) => answers(
            rt,
            place,
            said(lent.start(rt, design, number)?, heap)?,
            text,
        ),
        Step::Walk(budget, text) => {
            answers(
                rt,
                place,
                walk_said(lent.walk(rt, design, rule, budget)?, heap)?,
                text,
            )
        }
        Step::Peak(text) => answers(rt, place, said(lent.peak(rt, design)?, heap)?, text),
        Step::Window(width, text) => answers(
            rt,
            place,
            said(lent.window(rt, design, width)?, heap)?,
            text,
        ),
        Step::List(text) => answers(rt, place, listing(lent, heap)?, text),
    }
}

// Takes the steps in order.
pub(crate) fn follow<R: Rule>(
    rt: &impl Abort,
    lent: &mut Lent,
    design: &Design,
    rule: &R,
    steps: &[Step],
    heap: Global,
) -> Result<(), Fail> {
    for (place, step) in steps.iter().enumerate() {
        take_step(rt, lent, design, rule, *step, heap, place)?;
    }
    Ok(())
}
