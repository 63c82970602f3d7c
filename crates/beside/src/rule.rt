// The merge rules under which both walk.
ghost use Rattle.std.specs.Prelude.{◌≡◌};
ghost use Rattle.beside.specs.Rules.{rule_of, place_of_rule};

use slow::Base;

// Plain, eager, whole words over each of these, and whole words over whole words over eager.
#[derive(Clone, Copy, Default, Debug)]
pub enum Rule {
    #[default]
    Plain,
    Eager,
    Words,
    EagerWords,
    EagerWordsTwice,
}

impl Rule {
    pub const ALL: [Rule; 5] = [
        Rule::Plain,
        Rule::Eager,
        Rule::Words,
        Rule::EagerWords,
        Rule::EagerWordsTwice,
    ];
}

// The rule with this number in their order; a larger number is that of the last.
impl From<usize> for Rule {
    ghost from_gives = { λ number rule. rule ≡ rule_of number };

    fn from(number: usize) -> Rule {
        match number {
            0 => Rule::Plain,
            1 => Rule::Eager,
            2 => Rule::Words,
            3 => Rule::EagerWords,
            _ => Rule::EagerWordsTwice,
        }
    }
}

// The number of a rule in their order.
impl From<Rule> for usize {
    ghost from_gives = { λ rule number. number ≡ place_of_rule rule };

    fn from(rule: Rule) -> usize {
        rule as usize
    }
}

// A rule as the slow simulator has it.
impl From<Rule> for slow::Rule {
    fn from(rule: Rule) -> slow::Rule {
        let (base, words) = match rule {
            Rule::Plain => (Base::Plain, 0),
            Rule::Eager => (Base::Eager, 0),
            Rule::Words => (Base::Plain, 1),
            Rule::EagerWords => (Base::Eager, 1),
            Rule::EagerWordsTwice => (Base::Eager, 2),
        };
        slow::Rule { base, words }
    }
}
