// The clock edge: what each net and each RAM bit holds after it, read from the state before it alone.
ghost use Rattle.std.specs.Prelude.{◌≡◌, ℕ, ◌+◌, ◌*◌, ◌/◌, ◌%◌, ◌<◌, ◌≤◌, true, length, replicate, MatchResult};
ghost use Rattle.design.specs.Views.{core};
ghost use Rattle.levels.specs.Kinds.{choice};
ghost use Rattle.model.specs.Core.{places, driver_at, net_sound};
ghost use Rattle.model.specs.Cycle.{at, edged, stored, edge, given_by};
ghost use Rattle.engine.specs.Lent.{EdgeMemory};
ghost use Rattle.engine.specs.Refusals.{wrong_memory};

use crate::memory::ram_place;
use crate::state::State;
use bundle::{Fault, Refusal, ask};
use design::Design;
use levels::Level;
use model::Driver;

// How many leaves the largest memory has.
// Why apart: that there are as many is asked of the five functions that hand the leaves on; with a struct of that slice each would
// have to promise, at its return, that the slice is the same one.
pub(crate) const LEAVES: usize = 1024;

// What a store with an enable holds next: `data` at enable 1, what it held at 0, and else a level that allows what either allows.
fn next_level<V: Level>(enable: V, held: V, data: V) -> V
    ensures { result ≡ choice V.kind enable held «data» }
{
    V::choose(enable, held, data)
}

// Why a loop: `fill` asks that a clone of a level cannot fail and is that level, which `Level` does not say.
pub(crate) fn blank_all<V: Level>(levels: &mut [V])
    ensures { levels.new ≡ replicate (length levels.old) V.kind.blank }
{
    for level in levels.iter_mut() {
        *level = V::blank();
    }
}

// The level given to an input by its place in the line, blank past the line's end.
fn given_at<V: Level>(line: &[V], place: usize) -> V
    ensures { result ≡ at V.kind line.now place }
{
    if place < line.len() {
        line[place]
    } else {
        V::blank()
    }
}

impl<'a, V: Level> State<'a, V> {
    // The level of net i after the edge, before the gates settle. An input takes the level given.
    fn edged_net(&self, given: V, i: usize, driver: Driver, leaves: &mut [V]) -> V
        requires net { i < length (core self.now.design.now).nets }
        requires driver { net_sound (core self.now.design.now) i driver ≡ true }
        requires leaves { 1024 ≤ length leaves.old }
        ensures { result ≡ edged V.kind (core self.now.design.now) self.now.levels.now (λ _. given) i driver }
    {
        match driver {
            Driver::Gate(_) => self.levels[i],
            Driver::Flop { data } => self.at(data),
            Driver::EnabledFlop { data, enable } => {
                next_level(self.at(enable), self.levels[i], self.at(data))
            }
            Driver::Input => given,
            Driver::RomBit { bit } => self.read_rom(bit, leaves),
            Driver::RamBit { bit } => self.read_ram(bit, leaves),
            Driver::Constant { bit } => V::of_bit(bit),
        }
    }

    // The nets after the edge.
    fn edge_nets(&self, line: &[V], after: &mut [V], leaves: &mut [V])
        requires after { length after.old ≡ places (core self.now.design.now) }
        requires leaves { 1024 ≤ length leaves.old }
        ensures { (i : ℕ) → i < length (core self.now.design.now).nets → at V.kind after.new i ≡ edged V.kind (core self.now.design.now) self.now.levels.now (given_by V.kind (core self.now.design.now) line.now) i (driver_at (core self.now.design.now) i) }
    {
        let mut inputs = 0;
        for (i, net) in self.design.nets().iter().enumerate() {
            let given = given_at(line, inputs);
            after[i] = self.edged_net(given, i, net.driver, leaves);
            if let Driver::Input = net.driver {
                inputs += 1;
            }
        }
    }

    // The bits of a RAM word after the edge.
    fn edge_word(&self, word: usize, after: &mut [V])
        requires word { word < length (core self.now.design.now).ram }
        requires after { length after.old ≡ places (core self.now.design.now) }
        ensures below { (i : ℕ) → i < length (core self.now.design.now).nets + 16 * word → at V.kind after.new i ≡ at V.kind after.old i }
        ensures bits { (bit : ℕ) → bit < 16 → at V.kind after.new (length (core self.now.design.now).nets + (16 * word + bit)) ≡ stored V.kind (core self.now.design.now) self.now.levels.now word bit }
    {
        let on = self.word_written(word);
        // Why by index: a proof knows nothing of what is written through `zip`.
        for (bit, wire) in self.design.write_data().iter().enumerate() {
            let place = ram_place(self.design, word, bit);
            after[place] = next_level(on, self.ram_bit(word, bit), self.at(*wire));
        }
    }

    // The RAM after the edge.
    fn edge_words(&self, after: &mut [V])
        requires after { length after.old ≡ places (core self.now.design.now) }
        ensures nets { (i : ℕ) → i < length (core self.now.design.now).nets → at V.kind after.new i ≡ at V.kind after.old i }
        ensures ram { (j : ℕ) → j < 16 * length (core self.now.design.now).ram → at V.kind after.new (length (core self.now.design.now).nets + j) ≡ stored V.kind (core self.now.design.now) self.now.levels.now (j / 16) (j % 16) }
    {
        // Why by index: `chunks_exact_mut` over the words of `after` does not say what the slice ends as.
        for word in 0..self.design.ram().len() {
            self.edge_word(word, after);
        }
    }

    // The state after the edge, before the gates settle. The first leaves are spent.
    pub(crate) fn edge(&self, line: &[V], after: &mut [V], leaves: &mut [V])
        requires after { length after.old ≡ places (core self.now.design.now) }
        requires leaves { 1024 ≤ length leaves.old }
        ensures { after.new ≡ edge V.kind (core self.now.design.now) self.now.levels.now (given_by V.kind (core self.now.design.now) line.now) }
    {
        self.edge_nets(line, after, leaves);
        self.edge_words(after);
    }
}

// The edge, which may leave any levels in the leaves.
fn spend_leaves<V: Level>(
    design: &Design,
    before: &[V],
    line: &[V],
    after: &mut [V],
    leaves: &mut [V],
) -> Result<(), Refusal>
    ensures { MatchResult result
        (λ _. EdgeMemory (core design.now) before.now after.old leaves.old
        × (after.new ≡ edge V.kind (core design.now) before.now (given_by V.kind (core design.now) line.now)))
        (λ e. (EdgeMemory (core design.now) before.now after.old leaves.old → ⊥)
        × (e ≡ wrong_memory) × (after.new ≡ after.old)) }
{
    let state = State::of(design, before)?;
    ask(
        after.len() == before.len() && LEAVES <= leaves.len(),
        Fault::Memory,
    )?;
    state.edge(line, after, leaves);
    Ok(())
}

// The state after the edge, before the gates settle, into `after`. `line` has the levels of the inputs in net order, and an
// input past its end is blank. Refusal 13 if a state has not as many places as the design says, or if there are fewer than 1,024
// leaves, which are blank in the end either way.
pub fn edge<V: Level>(
    design: &Design,
    before: &[V],
    line: &[V],
    after: &mut [V],
    leaves: &mut [V],
) -> Result<(), Refusal>
    ensures cases { MatchResult result
        (λ _. EdgeMemory (core design.now) before.now after.old leaves.old
        × (after.new ≡ edge V.kind (core design.now) before.now (given_by V.kind (core design.now) line.now)))
        (λ e. (EdgeMemory (core design.now) before.now after.old leaves.old → ⊥)
        × (e ≡ wrong_memory) × (after.new ≡ after.old)) }
    ensures leaves { leaves.new ≡ replicate (length leaves.old) V.kind.blank }
{
    let result = spend_leaves(design, before, line, after, leaves);
    blank_all(leaves);
    result
}
