// What a net may carry, and the one trait that every kind of level shares.
#![tactic(auto)]

ghost use Rattle.std.specs.Prelude.{◌≡◌, ℕ, ◌<◌, ◌≤◌, Bool, true, false, List, [], ◌∷◌};
ghost use Rattle.levels.specs.Kinds.{Kind, Lawful, Carries, Pads, bit_at, choice};
ghost use Rattle.levels.specs.Bits.{bit_kind, bit_is, bit_of};
ghost use Rattle.levels.specs.Tris.{tri_kind, tri_allows, tri_of};
ghost use Rattle.levels.specs.BitLaws.{bit_lawful};
ghost use Rattle.levels.specs.TriLaws.{tri_lawful};

// A level: which of the bits 0 and 1 a net may carry, at least one.
pub trait Level: Copy {
    // the meaning: which bits a level allows, the level of a bit, that of a place never written, what a cell makes of its pins
    ghost kind: { Kind Self };

    // Why not From: the contract names the meaning of this very kind, which generic code needs.
    fn of_bit(bit: bool) -> Self
        ensures { result ≡ kind.of_bit bit };

    fn blank() -> Self
        ensures { result ≡ kind.blank };

    fn allows(&self, bit: bool) -> bool
        ensures { result ≡ kind.allows self.now bit };

    // What the cell with this truth word makes of four pins. A cell with fewer has `of_bit(false)` at the others.
    fn cell(truth: u16, a: Self, b: Self, c: Self, d: Self) -> Self
        ensures { result ≡ kind.apply truth (a ∷ (b ∷ (c ∷ (d ∷ [])))) };

    // What the cell that chooses between two makes, its fourth pin not used: `zero` at select 0, `one` at select 1.
    fn choose(select: Self, zero: Self, one: Self) -> Self
        ensures { result ≡ choice kind select zero one };

    ghost means: { Lawful kind };
}

// Where the levels V cover the levels W pin by pin, a cell's level in V covers its level in W.
pub fn carries<V: Level, W: Level>() -> u8
    ensures { Carries V.Level.kind W.Level.kind }
{
    0
}

// A cell with few pins is one with four, of which the others carry false.
pub fn pads<V: Level>() -> u8
    ensures { Pads V.Level.kind }
{
    0
}

#[derive(Clone, Copy, PartialEq, Eq, Debug)]
pub enum Bit {
    Zero,
    One,
}

impl Bit {
    fn is_one(self) -> bool
        ensures { result ≡ bit_is self }
    {
        match self {
            Bit::Zero => false,
            Bit::One => true,
        }
    }
}

impl Level for Bit {
    ghost kind = { bit_kind };

    ghost means = { bit_lawful };

    fn of_bit(bit: bool) -> Bit {
        if bit { Bit::One } else { Bit::Zero }
    }

    fn blank() -> Bit {
        Bit::Zero
    }

    fn allows(&self, bit: bool) -> bool {
        self.is_one() == bit
    }

    fn cell(truth: u16, a: Bit, b: Bit, c: Bit, d: Bit) -> Bit {
        let row = a as u16 + 2 * (b as u16) + 4 * (c as u16) + 8 * (d as u16);
        Self::of_bit((truth >> row) & 1 == 1)
    }

    fn choose(select: Bit, zero: Bit, one: Bit) -> Bit {
        match select {
            Bit::Zero => zero,
            Bit::One => one,
        }
    }
}

#[derive(Clone, Copy, PartialEq, Eq, Debug)]
pub enum Tri {
    Zero,
    One,
    X,
}

impl Tri {
    // The level that allows zero, one or both. A table, since a branch on the result costs more than the rest of a cell.
    fn made(zero: bool, one: bool) -> Tri
        ensures { result ≡ tri_of zero one }
    {
        let all = [Tri::X, Tri::Zero, Tri::One, Tri::X];
        all[zero as usize + 2 * (one as usize)]
    }

    // The rows of a truth word that a pin allows, of which `ones` has those where the pin is one.
    fn rows(self, ones: u16) -> u16
        ensures { (i : ℕ) → i < 16 → bit_at result i ≡ tri_allows self (bit_at ones i) }
    {
        match self {
            Tri::Zero => !ones,
            Tri::One => ones,
            Tri::X => 0xffff,
        }
    }
}

impl Level for Tri {
    ghost kind = { tri_kind };

    ghost means = { tri_lawful };

    fn of_bit(bit: bool) -> Tri {
        if bit { Tri::One } else { Tri::Zero }
    }

    fn blank() -> Tri {
        Tri::X
    }

    fn allows(&self, bit: bool) -> bool {
        match self {
            Tri::Zero => !bit,
            Tri::One => bit,
            Tri::X => true,
        }
    }

    fn cell(truth: u16, a: Tri, b: Tri, c: Tri, d: Tri) -> Tri {
        let rows = a.rows(0xaaaa) & b.rows(0xcccc) & c.rows(0xf0f0) & d.rows(0xff00);
        Self::made(rows & !truth != 0, rows & truth != 0)
    }

    fn choose(select: Tri, zero: Tri, one: Tri) -> Tri {
        match select {
            Tri::Zero => zero,
            Tri::One => one,
            Tri::X => match (zero, one) {
                (Tri::Zero, Tri::Zero) => Tri::Zero,
                (Tri::One, Tri::One) => Tri::One,
                _ => Tri::X,
            },
        }
    }
}
