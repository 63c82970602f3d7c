// What the meanings of the named rules say, as equations.
ghost use Rattle.levels.specs.declared.Tri.{Tri};
ghost use Rattle.record.specs.Record.{Meaning};
ghost use Rattle.rules.specs.Exact.{PlainExact, EagerExact, WholeExact, PlainLeast};

// Plain and eager allow just one answer to each question.
pub fn named_rules_are_exact() -> u8
    ensures plain { PlainExact }
    ensures eager { EagerExact }
{
    0
}

// Over any rule, whole words allow the whole words of just what that rule allows.
pub fn whole_words_are_exact() -> u8
    ensures { (m : Meaning Tri) → WholeExact m }
{
    0
}

// Every state that covers both the kept state and the new one covers what plain makes of them.
pub fn plain_is_least() -> u8
    ensures { PlainLeast }
{
    0
}
