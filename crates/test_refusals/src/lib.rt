// Every refusal of every call on document 01's sample ring. Each case differs in one place from the
// good one, or from one that is named beside its list.
#![tactic(auto)]

mod cases;
mod trials;

ghost use Rattle.std.specs.Prelude.{◌≤◌, IfOk};

use crate::cases::Case;
use crate::trials::{TRIALS, Trial};
use std::{fmt, io};

#[derive(Clone, Copy, PartialEq, Eq)]
pub(crate) enum Call {
    Writer,
    Opening,
    Lookup,
    Search,
    Series,
    Parallel,
    New,
    Add,
    Ageing,
    Weights,
    Reliability,
    Remove,
    Score,
}

// What a call answered: the number of a refusal that left all as it was, or what nothing expects.
#[derive(Clone, Copy, PartialEq, Eq)]
pub(crate) enum Answer {
    Success,
    Refusal(u32),
    Wrong,
}

pub(crate) fn told(refusal: Option<u32>, kept: bool) -> Answer {
    match refusal {
        None => Answer::Success,
        Some(number) if kept => Answer::Refusal(number),
        Some(_) => Answer::Wrong,
    }
}

impl Call {
    const ALL: [Call; 13] = [
        Call::Writer,
        Call::Opening,
        Call::Lookup,
        Call::Search,
        Call::Series,
        Call::Parallel,
        Call::New,
        Call::Add,
        Call::Ageing,
        Call::Weights,
        Call::Reliability,
        Call::Remove,
        Call::Score,
    ];

    // What is due to a change: opening refuses no round, lookup's check no order and no room; both
    // refuse kinds.
    fn due(self, refusal: Option<u32>) -> Answer {
        match (self, refusal) {
            (_, None) => Answer::Success,
            (_, Some(32)) => Answer::Refusal(32),
            (Call::Opening, Some(10..)) => Answer::Success,
            (Call::Lookup, Some(11..)) => Answer::Success,
            (_, Some(number)) => Answer::Refusal(number),
        }
    }
}

impl fmt::Display for Call {
    fn fmt<W: fmt::Write>(&self, f: &mut fmt::Formatter<W>) -> fmt::Result {
        f.write_str(match self {
            Call::Writer => "writer",
            Call::Opening => "opening",
            Call::Lookup => "lookup",
            Call::Search => "search",
            Call::Series => "series",
            Call::Parallel => "parallel",
            Call::New => "new",
            Call::Add => "add",
            Call::Ageing => "ageing",
            Call::Weights => "weights",
            Call::Reliability => "reliability",
            Call::Remove => "remove",
            Call::Score => "score",
        })
    }
}

// The numbers that each call refused with, and how many answers were wrong, up to 20,000.
#[derive(Drop)]
struct Seen {
    refusals: [[bool; 40]; 13],
    wrong: u64,
    ghost few: { wrong ≤ 20000 },
}

impl Seen {
    fn note(&mut self, call: Call, answer: Answer, due: Answer) {
        if let Answer::Refusal(number) = answer
            && number < 40
        {
            self.refusals[call as usize][number as usize] = true;
        }
        self.wrong = (self.wrong + u64::from(answer != due)).min(20000);
    }

    fn try_at(&mut self, call: Call, trial: &Trial) {
        let mut base = Case::good();
        for change in trial.base {
            base = base.with(*change);
        }
        for (change, refusal) in trial.changes {
            let case = base.with(*change);
            let lent = case;
            let answer = lent.run(call);
            // What the call only reads is as it was.
            let answer = if lent == case { answer } else { Answer::Wrong };
            self.note(call, answer, call.due(*refusal));
        }
    }

    fn try_all(&mut self, trial: &Trial) {
        for call in trial.calls {
            self.try_at(*call, trial);
        }
    }
}

// A line: the call's name and the numbers that it refused with.
fn show(rt: &impl Print, call: Call, refusals: [bool; 40]) -> io::Result<()> {
    print!(rt; "{call} refused")?;
    for (number, seen) in refusals.iter().enumerate() {
        if *seen {
            print!(rt; " {number}")?;
        }
    }
    println!(rt; "")
}

// Tries all, prints what was refused, and tells how many answers were wrong.
pub fn try_refusals(rt: &impl Print) -> io::Result<u64>
    ensures { IfOk result (λ wrong. wrong ≤ 20000) }
{
    let mut seen = Seen {
        refusals: [[false; 40]; 13],
        wrong: 0,
    };
    for trial in &TRIALS {
        seen.try_all(trial);
    }
    for call in Call::ALL {
        show(rt, call, seen.refusals[call as usize])?;
    }
    Ok(seen.wrong)
}
