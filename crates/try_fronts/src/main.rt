// Runs series and parallel on generated records, good and damaged, and compares every answer and
// every byte with a plain check, cell by cell, that shares no code with the library.
#![tactic(auto)]

mod cases;
mod plain;

ghost use Rattle.std.specs.Prelude.{◌≤◌};

use answer::Refusal;
use std::io;

#[derive(Clone, Copy)]
enum Join {
    Series,
    Parallel,
}

impl Join {
    fn call(self, left: &[u8], right: &[u8], out: &mut [u8]) -> Result<usize, Refusal> {
        match self {
            Join::Series => compose::series(left, right, out),
            Join::Parallel => compose::parallel(left, right, out),
        }
    }

    // The call's answer, a length or a refusal's number; none where it is not that of the plain
    // check. A refusal leaves the slice as it was.
    fn held(self, left: &[u8], right: &[u8], room: usize) -> Option<Result<usize, u32>>
        requires { room ≤ 160 }
    {
        let mut out = [165u8; 160];
        let mut want = [165u8; 160];
        let got = self.call(left, right, &mut out[..room]).map_err(u32::from);
        let due = match self.plain(left, right) {
            Ok(record) if room < record.len() => Err(15),
            Ok(record) => {
                want[..record.len()].copy_from_slice(&record);
                Ok(record.len())
            }
            Err(number) => Err(number),
        };
        ((got == due) & (out == want)).then_some(got)
    }

    // The case of a seed.
    fn one(self, seed: u64) -> Option<Result<usize, u32>> {
        let left = cases::make(seed);
        let right = cases::partner(seed, &left);
        self.held(&left, &right, cases::room(seed))
    }

    fn run(self) -> Counts {
        let mut counts = Counts::default();
        for i in 0..4000 {
            counts.note(self.one(test_support::seed(i)));
        }
        counts
    }
}

// What a run has seen.
#[derive(Clone, Copy, Default)]
struct Counts {
    tried: u64,
    written: u64,
    refused12: u64,
    refused13: u64,
    refused15: u64,
    wrong: u64,
}

// One more where the test holds.
fn tick(count: &mut u64, test: bool) {
    *count = count.saturating_add(u64::from(test));
}

impl Counts {
    fn note(&mut self, answer: Option<Result<usize, u32>>) {
        tick(&mut self.tried, true);
        tick(&mut self.written, matches!(answer, Some(Ok(_))));
        tick(&mut self.refused12, answer == Some(Err(12)));
        tick(&mut self.refused13, answer == Some(Err(13)));
        tick(&mut self.refused15, answer == Some(Err(15)));
        tick(&mut self.wrong, answer.is_none());
    }

    fn show(&self, rt: &impl Print) -> io::Result<()> {
        println!(rt; "  calls {}", self.tried)?;
        println!(rt; "  written {}", self.written)?;
        println!(rt; "  refused 12 {}", self.refused12)?;
        println!(rt; "  refused 13 {}", self.refused13)?;
        println!(rt; "  refused 15 {}", self.refused15)?;
        println!(rt; "  wrong {}", self.wrong)
    }
}

fn main(rt: HostRuntime) -> io::Result<()> {
    println!(rt; "series")?;
    Join::Series.run().show(&rt)?;
    println!(rt; "parallel")?;
    Join::Parallel.run().show(&rt)
}
