// Theorems on one cycle. Each function here promises one; it computes nothing, and a crate that calls it may rely on the theorem.
ghost use Rattle.model.specs.Exact.{GatesAreExact, ReadsAreExact, WritesAreExact, EnablesAreExact};
ghost use Rattle.model.specs.Monotone.{StepsAreMonotone};
ghost use Rattle.model.specs.Settle.{GatesSettle};
ghost use Rattle.model.specs.Tag.{BitsAreTheTag, OneStateFollows};

use levels::Level;

// A gate's output may be 0 or 1 exactly as its truth word allows: a bit is allowed if and only if some choice of bits for the
// pins, each one that its net may carry and chosen by itself, leads to a row of the truth word with this bit. A pin that the gate
// does not use is 0 in every choice.
pub fn gates_are_exact<V: Level>() -> u8
    ensures { GatesAreExact V.Level.kind }
{
    0
}

// A bit read from a ROM or RAM of 2^a words may be 0 or 1 exactly as some word that the a address wires may name allows, each
// wire chosen by itself, the first being the lowest bit of the address.
pub fn reads_are_exact<V: Level>() -> u8
    ensures { ReadsAreExact V.Level.kind }
{
    0
}

// A RAM bit after the edge may be 0 or 1 exactly as some choice of the write enable and the address wires allows: its data
// wire if the choice has enable 1 and the address of its word, and else the bit as it was. So it is as its data wire where every
// choice writes the word, as it was where none does, and otherwise may be what either may be.
pub fn writes_are_exact<V: Level>() -> u8
    ensures { WritesAreExact V.Level.kind }
{
    0
}

// A flop with an enable may be 0 or 1 after the edge exactly as what is offered allows if the enable may be 1, or as what it
// holds allows if the enable may be 0. An enable that may be either, between two equal bits, leaves this bit.
pub fn enables_are_exact<V: Level>() -> u8
    ensures { EnablesAreExact V.Level.kind }
{
    0
}

// Settling the gates once, in net order, is enough. In the settled state each gate's net has just what the gate makes of its pins'
// nets in that same state, every net without a gate and every RAM bit is as before, and there is no second such state. This holds
// of every state with a place for each net, in every core with sound nets: they name only nets, and no gate has itself or a gate
// of a higher number at a pin.
pub fn gates_settle<V: Level>() -> u8
    ensures { GatesSettle V.Level.kind }
{
    0
}

// What is unknown stays on the safe side. If state s allows at each place at least what state c allows, and its inputs at
// least those of c, then so it is after the edge, after the gates settle and after the whole cycle; and a step from s is charged
// no less than one from c. A start state allows at least what the same start allows in another kind of level.
// V is the kind of s, in which a place never written may be either bit, and W that of c.
pub fn steps_are_monotone<V: Level, W: Level>() -> u8
    ensures { StepsAreMonotone V.Level.kind W.Level.kind }
{
    0
}

// Over plain bits the model is the tag itself. A flop takes its data's bit, an enabled one only at enable 1; a memory bit is that
// bit of the word at the address, the RAM as it was before the edge; the RAM word at the address takes the data bits at write
// enable 1, and every other word is kept; a gate has its truth word's bit at the row that its pins' bits number. The charge of a
// step is the cycle's energy: of each net idle, and rise or fall where its bit changes, both memories' energies, and that of a
// write at write enable 1. This holds of every core with sound memories: one word for each address, of at most 10 address bits in
// the ROM and 8 in the RAM.
pub fn bits_are_the_tag() -> u8
    ensures { BitsAreTheTag }
{
    0
}

// The tag's cycle as a law of two states and the inputs between them, with no order of computing in it: every gate's net agrees
// with its pins in the new state, every other net and every RAM bit is what the edge makes of the old state. The state that the
// model computes obeys this law, and no other does. This holds of every core with sound nets and sound memories.
pub fn one_state_follows() -> u8
    ensures { OneStateFollows }
{
    0
}
