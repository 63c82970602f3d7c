// Records and bundles that are changed so that they are refused.
use crate::comparison::Comparison;
use beside::{Answer, Case, Pair, Stop, answered};
use decode::read_design;
use design::Design;
use random_tags::{Body, Parts, Random};
use record::{Fate, Origin};
use slow_tag::{Question, read_tag, refuse};
use std::alloc::AllocError;

// Makes a record name a point as its origin, in both.
fn name_origin(pair: &mut Pair, place: usize, named: u16) {
    if let Some(point) = pair.bench.memory.points.get_mut(place) {
        point.origin = Origin::From { point: named };
    }
    if let Some(point) = pair.record.points.get_mut(place) {
        point.origin = Some(named as usize);
    }
}

// Makes a record name a point as what it is cut to, in both.
fn name_cut(pair: &mut Pair, place: usize, named: u16) {
    if let Some(point) = pair.bench.memory.points.get_mut(place) {
        point.fate = Fate::Cut { to: named };
    }
    if let Some(point) = pair.record.points.get_mut(place) {
        point.fate = slow::Fate::Cut(named as usize);
    }
}

// Writes a byte, if it is there.
fn put(bytes: &mut [u8], place: usize, value: usize) {
    if let Some(byte) = bytes.get_mut(place) {
        *byte = (value & 0xff) as u8;
    }
}

// Makes the header's length that of the bundle.
fn mend_length(bytes: &mut [u8]) {
    let length = bytes.len().to_le_bytes();
    for (byte, field) in bytes.iter_mut().skip(14).take(4).zip(length) {
        *byte = field;
    }
}

// Changes some bytes, from a place on.
fn change_bytes(random: &mut Random, bytes: &mut [u8], first: usize) {
    let rest = bytes.len().saturating_sub(first);
    for _ in 0..random.between(1, 2) {
        let place = first.saturating_add(random.below(rest));
        let value = if random.once_in(2) {
            random.below(8)
        } else {
            random.below(256)
        };
        put(bytes, place, value);
    }
}

// Cuts the bundle short, or makes it longer, its length mended or not.
// Why numbers: the draw says which change it is; an enum to draw from would name each change once more. So in the next functions.
fn change_length(random: &mut Random, bytes: &mut Vec<u8>) -> Result<(), AllocError> {
    match random.below(4) {
        0 => bytes.truncate(random.below(90)),
        1 => {
            let length = random.below(bytes.len());
            bytes.truncate(length);
        }
        2 => bytes.push(0)?,
        _ => {}
    }
    if random.once_in(3) {
        put(bytes, 3, random.pick(&[0, 6, 8, 32, 33, 255]));
    }
    if !random.once_in(3) {
        mend_length(bytes);
    }
    Ok(())
}

// Changes one body: a byte, or the number of its entries.
fn change_body(random: &mut Random, parts: &mut Parts) -> Result<(), AllocError> {
    let body = random.pick(&Body::ALL);
    let change = random.below(10);
    let bytes = parts.body_mut(body);
    match change {
        0 => {
            let length = bytes.len().saturating_sub(body.entry_size());
            bytes.truncate(length);
        }
        1 => {
            let length = bytes.len().saturating_add(body.entry_size());
            bytes.resize(length, 0)?;
        }
        2 => bytes.clear(),
        _ => change_bytes(random, bytes, 0),
    }
    Ok(())
}

// Changes a figure of the header.
fn change_figures(random: &mut Random, parts: &mut Parts) {
    if random.once_in(2) {
        parts.clock = random.pick(&[0, 1, 200, 201, 256, 65535]);
    } else {
        parts.window = random.pick(&[0, 1, 65535]);
    }
}

impl Comparison {
    // Makes a record name a point that is not in use, in both, and asks for the window.
    pub(crate) fn damage_record(&mut self, pair: &mut Pair) -> Result<(), Stop> {
        let count = pair.record.points.len();
        if pair.record.open_count() != 0 || count == 0 {
            return Ok(());
        }
        let place = self.random.below(count);
        let named = count.saturating_add(self.random.below(3)).min(65535) as u16;
        if self.random.once_in(2) {
            name_origin(pair, place, named);
        } else {
            name_cut(pair, place, named);
        }
        let answer = pair.window(3, 0, &mut self.tally)?;
        let expected = refuse(Question::Names, place);
        self.tally
            .agree_on(Case::Damaged, "a damaged record", answer, expected.into())
    }

    // Reads a bundle by both.
    pub(crate) fn read_both(&mut self, bytes: &[u8]) -> Result<Answer, Stop> {
        let mut design = Design::new();
        let library = Answer::from(read_design(&mut design, bytes).map(|()| 0u64));
        let slow = Answer::from(answered(read_tag(bytes, self.heap))?.map(|_tag| 0u64));
        self.tally.note(library);
        self.tally
            .agree_on(Case::Bundles, "a bundle", library, slow)?;
        Ok(library)
    }

    // Changes a tag's bundle in some way, and reads what comes of it by both.
    pub(crate) fn damage_bundle(&mut self, whole: &Parts) -> Result<(), Stop> {
        let random = &mut self.random;
        let mut parts = whole.clone()?;
        let mut bytes = parts.bundle(self.heap)?;
        match random.below(8) {
            0 => change_bytes(random, &mut bytes, 0),
            1 => change_bytes(random, &mut bytes, 18),
            2 => {
                let place = random.between(0, 73);
                put(&mut bytes, place, random.below(256));
            }
            3 => change_length(random, &mut bytes)?,
            4 => {
                change_figures(random, &mut parts);
                bytes = parts.bundle(self.heap)?;
            }
            _ => {
                change_body(random, &mut parts)?;
                bytes = parts.bundle(self.heap)?;
            }
        }
        self.shown = bytes.clone()?;
        self.read_both(&bytes)?;
        Ok(())
    }
}
