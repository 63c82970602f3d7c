// What a step may draw, in femtojoules.
use crate::level::Level;
use crate::state::State;
use slow_tag::{Cell, Tag};

// The most over all bits that a net may have before and after: a net that keeps its bit draws nothing.
fn most(cell: &Cell, before: Level, after: Level) -> u32 {
    let rise = before.allows(false) && after.allows(true);
    let fall = before.allows(true) && after.allows(false);
    let rise = if rise { cell.toggle(false, true) } else { 0 };
    let fall = if fall { cell.toggle(true, false) } else { 0 };
    rise.max(fall)
}

// The charge of a step from one state to another.
pub(crate) fn charge(tag: &Tag, before: &State, after: &State) -> u32 {
    let fixed = tag.rom_energy.saturating_add(tag.ram_energy);
    let sum = tag
        .nets
        .iter()
        .enumerate()
        .fold(fixed, |sum, (number, net)| {
            let drawn = most(&net.cell, before.at(number), after.at(number));
            sum.saturating_add(net.cell.idle).saturating_add(drawn)
        });
    if before.at(tag.enable).allows(true) {
        sum.saturating_add(tag.write_energy)
    } else {
        sum
    }
}
