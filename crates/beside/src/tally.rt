// How often each kind of case came up and agreed.
ghost use Rattle.std.specs.Prelude.{◌≡◌, ◌↔◌, IsTrue, IsOk, slice_set};
ghost use Rattle.beside.specs.Tally.{counted, count_at, place_of};

use crate::answer::Answer;
use crate::rule::Rule;
use crate::stop::{Difference, Stop};
use slow::Seen;
use std::{fmt, io};

// A kind of case.
#[derive(Clone, Copy)]
pub enum Case {
    Makings,
    Starts,
    Walks,
    Points,
    States,
    Peaks,
    Windows,
    WindowsByPaths,
    Figures,
    Plays,
    PlayedCycles,
    Runs,
    RunCycles,
    Stretches,
    Bundles,
    Limits,
    Lengths,
    Damaged,
}

// The kinds of case in their order, each as it is printed.
const CASES: [(Case, &'static str); 18] = [
    (Case::Makings, "makings"),
    (Case::Starts, "starts"),
    (Case::Walks, "walks"),
    (Case::Points, "records of points"),
    (Case::States, "kept and open states"),
    (Case::Peaks, "peaks"),
    (Case::Windows, "windows"),
    (Case::WindowsByPaths, "windows by all paths"),
    (Case::Figures, "peaks and windows together"),
    (Case::Plays, "plays"),
    (Case::PlayedCycles, "played cycles"),
    (Case::Runs, "runs along paths"),
    (Case::RunCycles, "cycles of runs within the peak"),
    (Case::Stretches, "stretches of runs within the window"),
    (Case::Bundles, "changed bundles"),
    (Case::Limits, "tags at their limits"),
    (Case::Lengths, "calls with other lengths"),
    (Case::Damaged, "damaged records"),
];

// How often something was compared, and how often it agreed.
#[derive(Clone, Copy, Default)]
pub struct Count {
    pub tried: usize,
    pub agreed: usize,
}

impl Count {
    pub fn add(&mut self, agreed: bool)
        ensures { self.new ≡ counted self.old agreed }
    {
        self.tried = self.tried.saturating_add(1);
        if agreed {
            self.agreed = self.agreed.saturating_add(1);
        }
    }
}

impl fmt::Display for Count {
    fn fmt<W: fmt::Write>(&self, f: &mut fmt::Formatter<W>) -> fmt::Result {
        let (tried, agreed) = (self.tried, self.agreed);
        write!(f, "{tried} agreed {agreed}")
    }
}

#[derive(Clone, Copy, Default)]
pub struct Tally {
    pub tags: usize,
    pub taken: usize,
    pub merges: usize,
    pub splits: usize,
    pub enables: usize,
    pub addresses: usize,
    pub cuts: usize,
    pub halts: usize,
    pub cases: [Count; 18],
    pub rules: [usize; 5],
    // By the number of a refusal.
    pub refusals: [usize; 23],
}

impl Tally {
    // Counts a case.
    pub fn count(&mut self, case: Case, agreed: bool)
        ensures { self.new.cases ≡ slice_set self.old.cases (place_of case) (counted (count_at self.old.cases (place_of case)) agreed) }
    {
        self.cases[case as usize].add(agreed);
    }

    fn hold(&mut self, case: Case, same: bool, difference: Difference) -> Result<(), Stop>
        ensures { IsOk result ↔ IsTrue same }
    {
        self.count(case, same);
        if same {
            Ok(())
        } else {
            Err(Stop::Differs(difference))
        }
    }

    // Counts a fact that is to hold, and stops if it does not.
    pub fn agree(&mut self, case: Case, same: bool, what: &'static str) -> Result<(), Stop>
        ensures { IsOk result ↔ IsTrue same }
    {
        self.hold(case, same, Difference::Fact(what))
    }

    // Counts two answers, and stops if they differ.
    pub fn agree_on(
        &mut self,
        case: Case,
        what: &'static str,
        library: Answer,
        slow: Answer,
    ) -> Result<(), Stop>
        ensures { IsOk result → library ≡ slow }
    {
        self.hold(
            case,
            library == slow,
            Difference::Answers {
                what,
                library,
                slow,
            },
        )
    }

    // Counts a refusal.
    pub fn refused(&mut self, number: u8) {
        if let Some(count) = self.refusals.get_mut(number as usize) {
            *count = count.saturating_add(1);
        }
    }

    // Counts an answer's refusal, if it is one.
    pub fn note(&mut self, answer: Answer) {
        if let Some(refusal) = answer.refusal() {
            self.refused(refusal.number);
        }
    }

    // Counts what a record has seen.
    pub fn saw(&mut self, seen: Seen) {
        self.merges = self.merges.saturating_add(seen.merges);
        self.splits = self.splits.saturating_add(seen.splits);
        self.enables = self.enables.saturating_add(seen.enables);
        self.addresses = self.addresses.saturating_add(seen.addresses);
    }

    // Counts a walk under a rule, which is given as such or by its number; a number that no rule has counts nowhere.
    pub fn ruled<N: Into<usize>>(&mut self, rule: N) {
        if let Some(count) = self.rules.get_mut(rule.into()) {
            *count = count.saturating_add(1);
        }
    }

    // Prints a line for each kind of case.
    pub fn print(&self, rt: &impl Print) -> io::Result<()> {
        let tags = self.tags;
        println!(rt; "tags {tags}")?;
        for (case, name) in CASES {
            let count = self.cases[case as usize];
            println!(rt; "{name} {count}")?;
        }
        self.print_kinds(rt)
    }

    // Prints how often points were taken, merged, cut and halted, and how often there was each refusal.
    fn print_kinds(&self, rt: &impl Print) -> io::Result<()> {
        let (taken, merges) = (self.taken, self.merges);
        let (cuts, halts) = (self.cuts, self.halts);
        println!(rt; "taken {taken} merges {merges} cuts {cuts} halts {halts}")?;
        let (splits, enables, addresses) = (self.splits, self.enables, self.addresses);
        println!(rt;
            "walked with more than one successor {splits}, with an unknown write enable {enables}, with an unknown address {addresses}"
        )?;
        let [plain, eager, words, eager_words, twice] = self.rules;
        println!(rt;
            "walks by rule: plain {plain}, eager {eager}, whole words over plain {words}, over eager {eager_words}, over whole words over eager {twice}"
        )?;
        print!(rt; "refusals")?;
        for (number, count) in self.refusals.iter().enumerate().skip(1) {
            print!(rt; " {number}: {count}")?;
        }
        println!(rt)
    }
}
