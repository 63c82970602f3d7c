// Open points taken, the highest number first.
use crate::level::BOTH;
use crate::record::{Entry, Fate, Record};
use crate::rule::Rule;
use crate::state::State;
use crate::steps::successors;
use slow_tag::{Question, Refusal, Stop, Tag, ask, bit, refuse};
use std::alloc::{AllocError, Global};

// How a walk ends: its budget is spent, no point is open, or one is refused.
#[derive(Clone, Copy, PartialEq, Eq, Debug)]
pub enum Ending {
    Spent,
    Done,
    Refused(Refusal),
}

// What is done with a taken point: it is walked without a look at the kept states, or its state is kept, or it is cut to a point,
// or its merged state takes the place of the one kept.
#[derive(Clone, Copy, PartialEq, Eq)]
enum Treatment {
    Pass,
    Keep,
    Cut(usize),
    Replace(usize),
}

// Counts one more, if so.
fn count_if(seen: &mut usize, so: bool) {
    *seen = seen.saturating_add(so as usize);
}

impl Record {
    // The place, among the open points, of the one with the highest number.
    fn highest(&self) -> Option<usize> {
        let open = self.open.iter().enumerate();
        open.max_by_key(|(_, open)| open.number)
            .map(|(slot, _)| slot)
    }

    // Gives a point its fate.
    fn mark(&mut self, number: usize, fate: Fate) {
        if let Some(point) = self.points.get_mut(number) {
            point.fate = fate;
        }
    }

    // What is done with a point, whose state is merged with the kept one if it is not covered.
    fn treat(&self, tag: &Tag, rule: Rule, key: usize, state: &mut State) -> Treatment {
        if !rule.watches(state.at(tag.mark).allows(true)) {
            return Treatment::Pass;
        }
        let mut entries = self.entries.iter().enumerate();
        let Some((place, entry)) = entries.find(|(_, entry)| entry.key == key) else {
            return Treatment::Keep;
        };
        if entry.state.covers(state) {
            return Treatment::Cut(entry.point);
        }
        rule.merge(&entry.state, state, tag.nets.len());
        state.set_pilots(tag, key);
        state.set_constants(tag);
        Treatment::Replace(place)
    }

    // Is there room for an entry, if it is needed, for so many more points, and for as many open ones, one being taken?
    fn ask_room(&self, treatment: Treatment, number: usize, count: usize) -> Result<(), Refusal> {
        let kept = (treatment == Treatment::Keep) as usize;
        let entries = self.entries.len().saturating_add(kept);
        let points = self.points.len().saturating_add(count);
        let open = self.open.len().saturating_sub(1).saturating_add(count);
        ask(entries <= self.limits.entries, Question::EntryRoom, number)?;
        ask(points <= self.limits.points, Question::PointRoom, number)?;
        ask(open <= self.limits.open, Question::OpenRoom, number)
    }

    // Writes the entry of a point that keeps its state.
    fn keep(&mut self, treatment: Treatment, entry: Entry) -> Result<(), AllocError> {
        match treatment {
            Treatment::Keep => self.entries.push(entry)?,
            Treatment::Replace(place) => {
                if let Some(old) = self.entries.get_mut(place) {
                    let count = old.count.saturating_add(1);
                    *old = Entry { count, ..entry };
                }
            }
            Treatment::Pass | Treatment::Cut(_) => {}
        }
        Ok(())
    }

    // Counts what kind of step is taken from a state.
    fn note(&mut self, tag: &Tag, treatment: Treatment, state: &State, count: usize) {
        let merged = matches!(treatment, Treatment::Replace(_));
        let mut wires = tag.rom_address.iter().chain(&tag.ram_address);
        count_if(&mut self.seen.merges, merged);
        count_if(&mut self.seen.splits, 1 < count);
        count_if(&mut self.seen.enables, state.at(tag.enable) == BOTH);
        let address = wires.any(|wire| state.at(*wire) == BOTH);
        count_if(&mut self.seen.addresses, address);
    }

    // Takes the open point at a place of the open ones.
    fn take(&mut self, tag: &Tag, rule: Rule, slot: usize, heap: Global) -> Result<(), Stop> {
        let Some(open) = self.open.get(slot) else {
            return Ok(());
        };
        let number = open.number;
        let mut state = open.state.clone()?;
        let key = self.points.get(number).map_or(0, |point| point.key);
        if bit(key, 0) {
            self.close(slot, number, Fate::Halted);
            return Ok(());
        }
        let treatment = self.treat(tag, rule, key, &mut state);
        if let Treatment::Cut(to) = treatment {
            self.close(slot, number, Fate::Cut(to));
            return Ok(());
        }
        let next = successors(tag, &state, heap)?;
        self.ask_room(treatment, number, next.len())?;
        self.close(slot, number, Fate::Walked);
        self.note(tag, treatment, &state, next.len());
        let entry = Entry {
            key,
            point: number,
            count: 0,
            state,
        };
        self.keep(treatment, entry)?;
        for step in next {
            self.add(Some(number), step)?;
        }
        Ok(())
    }

    // Takes a point from the open ones, and gives it its fate.
    fn close(&mut self, slot: usize, number: usize, fate: Fate) {
        if slot < self.open.len() {
            let _ = self.open.remove(slot);
        }
        self.mark(number, fate);
    }

    // Takes points until none is open, or so many are taken, or one is refused: how many were taken, and how it ends.
    pub fn walk(
        &mut self,
        tag: &Tag,
        rule: Rule,
        budget: usize,
        heap: Global,
    ) -> Result<(usize, Ending), AllocError> {
        if self.points.is_empty() {
            return Ok((0, Ending::Refused(refuse(Question::Started, 0))));
        }
        for taken in 0..budget {
            let Some(slot) = self.highest() else {
                return Ok((taken, Ending::Done));
            };
            match self.take(tag, rule, slot, heap) {
                Ok(()) => {}
                Err(Stop::Refused(refusal)) => return Ok((taken, Ending::Refused(refusal))),
                Err(Stop::Memory(error)) => return Err(error),
            }
        }
        if self.open.is_empty() {
            return Ok((budget, Ending::Done));
        }
        Ok((budget, Ending::Spent))
    }
}
