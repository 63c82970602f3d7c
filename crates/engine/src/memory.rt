// What the memories answer: a tree of two-way choices over their words, and whether the edge writes a word.
ghost use Rattle.std.specs.Prelude.{◌≡◌, ℕ, ◌+◌, ◌*◌, ◌/◌, ◌^◌, ◌<◌, ◌≤◌, map, length, take, slice_index};
ghost use Rattle.design.specs.Views.{core};
ghost use Rattle.levels.specs.Kinds.{bit_at};
ghost use Rattle.model.specs.Core.{places};
ghost use Rattle.model.specs.Cycle.{at, paired, picked, rom_leaves, ram_leaves, word_written};

use crate::state::State;
use design::Design;
use levels::Level;

// Truth words of two pins: both, and the first without the second.
const BOTH: u16 = 8;

const FIRST_ONLY: u16 = 2;

// One layer of the tree, in place: place i becomes what `select` chooses of places 2 * i and 2 * i + 1.
fn pair_up<V: Level>(select: V, leaves: &mut [V])
    ensures { take (length leaves.old / 2) leaves.new ≡ paired V.kind select leaves.old }
{
    // Why by index: place i is written while places 2 * i and 2 * i + 1 of the same slice are read, which no iterator lends.
    let half = leaves.len() / 2;
    for i in 0..half {
        leaves[i] = V::choose(select, leaves[2 * i], leaves[2 * i + 1]);
    }
}

// The place in a state of a bit of a RAM word.
pub(crate) fn ram_place(design: &Design, word: usize, bit: usize) -> usize
    requires word { word < length (core design.now).ram }
    requires bit { bit < 16 }
    ensures place { result ≡ length (core design.now).nets + (16 * word + bit) }
    ensures within { result < places (core design.now) }
{
    design.nets().len() + (16 * word + bit)
}

// The bit of a number at a place, the lowest at 0.
// Why apart: that a bit's number is below 16 is asked of five functions; a type for it would be made of each loop's count and taken
// apart again at the shift.
pub(crate) fn bit_of(number: u16, place: usize) -> bool
    requires { place < 16 }
    ensures { result ≡ bit_at number place }
{
    (number >> place) & 1 == 1
}

// Each leaf from its number.
fn load<V: Level, F: Fn(usize) -> V>(leaf: F, leaves: &mut [V])
    requires { (i : ℕ) → i < length leaves.old → F.pre leaf i }
    ensures { (i : ℕ) → i < length leaves.old → F.post leaf i (at V.kind leaves.new i) }
{
    for (i, level) in leaves.iter_mut().enumerate() {
        *level = leaf(i);
    }
}

impl<'a, V: Level> State<'a, V> {
    // What the address picks out of the leaves, its lowest bit choosing nearest to them. The leaves are spent.
    fn pick(&self, address: &[u16], leaves: &mut [V]) -> V
        requires wires { (i : ℕ) → i < length address.now → slice_index address.now i < length (core self.now.design.now).nets }
        requires whole { length leaves.old ≡ 2 ^ length address.now }
        ensures { result ≡ picked V.kind (map (at V.kind self.now.levels.now) address.now) leaves.old }
    {
        let mut width = leaves.len();
        for wire in address {
            pair_up(self.at(*wire), &mut leaves[0..width]);
            width /= 2;
        }
        leaves[0]
    }

    // What a ROM bit reads. The first leaves are spent.
    pub(crate) fn read_rom(&self, bit: u8, leaves: &mut [V]) -> V
        requires bit { bit < 16 }
        requires leaves { 1024 ≤ length leaves.old }
        ensures { result ≡ picked V.kind (map (at V.kind self.now.levels.now) (core self.now.design.now).rom_address) (rom_leaves V.kind (core self.now.design.now) bit) }
    {
        let words = self.design.rom();
        let leaves = &mut leaves[0..words.len()];
        let bit = bit as usize;
        load(|word| V::of_bit(bit_of(words[word], bit)), leaves);
        self.pick(self.design.rom_address(), leaves)
    }

    // The level of a bit of a RAM word.
    pub(crate) fn ram_bit(&self, word: usize, bit: usize) -> V
        requires word { word < length (core self.now.design.now).ram }
        requires bit { bit < 16 }
        ensures { result ≡ at V.kind self.now.levels.now (length (core self.now.design.now).nets + (16 * word + bit)) }
    {
        self.levels[ram_place(self.design, word, bit)]
    }

    // What a RAM bit reads. The first leaves are spent.
    pub(crate) fn read_ram(&self, bit: u8, leaves: &mut [V]) -> V
        requires bit { bit < 16 }
        requires leaves { 1024 ≤ length leaves.old }
        ensures { result ≡ picked V.kind (map (at V.kind self.now.levels.now) (core self.now.design.now).ram_address) (ram_leaves V.kind (core self.now.design.now) self.now.levels.now bit) }
    {
        let leaves = &mut leaves[0..self.design.ram().len()];
        let bit = bit as usize;
        load(|word| self.ram_bit(word, bit), leaves);
        self.pick(self.design.ram_address(), leaves)
    }

    // Whether the edge writes a RAM word: the write enable, joined with the match of each address bit.
    pub(crate) fn word_written(&self, word: usize) -> V
        requires { word < length (core self.now.design.now).ram }
        ensures { result ≡ word_written V.kind (core self.now.design.now) self.now.levels.now word }
    {
        let zero = V::of_bit(false);
        let mut on = self.at(self.design.write_enable());
        for (bit, wire) in self.design.ram_address().iter().enumerate() {
            let truth = if bit_of(word as u16, bit) {
                BOTH
            } else {
                FIRST_ONLY
            };
            on = V::cell(truth, on, self.at(*wire), zero, zero);
        }
        on
    }
}
