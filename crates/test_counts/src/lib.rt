// Answers of calls against a plain reading; how often each number applied, alone and with another
// that applied too.
#![tactic(auto)]

ghost use Rattle.std.specs.Prelude.{◌≤◌, ◌<◌, length};

use answer::{Header, Refusal};
use std::io;
use test_files::{Judged, Trailer, arcs_of, members, nodes_of, wrote};

// ---- answers
// Whether opening answered what is due, and a success tells what the file does.
pub fn opened_right(file: &[u8], due: Judged, got: Result<Header, Refusal>) -> bool
    requires { length file.now ≤ 10000 }
{
    let h = match got {
        Ok(h) => h,
        Err(r) => return due.first == Some(u32::from(r)),
    };
    let t = Trailer::of(file);
    let k = t.numbers;
    let n1 = members(nodes_of(file), arcs_of(file), 1);
    let n2 = members(nodes_of(file), arcs_of(file), 2);
    due.first.is_none()
        && [h.nodes, h.arcs, h.rounds] == [t.nodes, k.arcs, k.rounds]
        && [h.source, h.target] == [k.source, k.target]
        && [h.n1, h.n2] == [n1, n2]
}

// Whether a call that writes a file answered what is due: a success wrote these bytes alone, a refusal
// none.
pub fn wrote_right(bytes: &[u8], due: Judged, got: Result<usize, Refusal>, out: &[u8]) -> bool {
    match got {
        Ok(n) => due.first.is_none() && n == bytes.len() && wrote(out, bytes),
        Err(r) => due.first == Some(u32::from(r)) && wrote(out, b""),
    }
}

// ---- counts
// A number above each of document 01's and 02's.
const NUMBERS: usize = 40;

// What the cases of one call should have answered: how often each number applied first, and with
// each second one; place 0 stands for no number.
#[derive(Clone, Copy)]
pub struct Answers {
    seen: [[u64; NUMBERS]; NUMBERS],
}

fn place(number: Option<u32>) -> usize
    ensures { result < 40 }
{
    number.unwrap_or(0) as usize % NUMBERS
}

// One more where the test holds.
pub fn tick(count: &mut u64, test: bool) {
    *count = count.saturating_add(u64::from(test));
}

impl Answers {
    pub fn new() -> Answers {
        Answers {
            seen: [[0; NUMBERS]; NUMBERS],
        }
    }

    // A case: the numbers that it should have answered, and whether it did.
    pub fn judge(&mut self, j: Judged, right: bool, wrong: &mut u64) {
        tick(&mut self.seen[place(j.first)][place(j.second)], true);
        tick(wrong, !right);
    }

    // The call's name, its successes and its refusals; a number behind `with` is the next that
    // applied.
    pub fn show(&self, rt: &impl Print, name: &str) -> io::Result<()> {
        println!(rt; "{name}\n  good {}", self.seen[0][0])?;
        for (first, seconds) in self.seen.iter().enumerate().skip(1) {
            let n = seconds.iter().fold(0u64, |n, &more| n.saturating_add(more));
            if 0 < n {
                print!(rt; "  refused {first} {n}")?;
                with_others(rt, seconds)?;
                println!(rt;)?;
            }
        }
        Ok(())
    }
}

// Each second number that came.
fn with_others(rt: &impl Print, seconds: &[u64]) -> io::Result<()> {
    for (second, &n) in seconds.iter().enumerate().skip(1) {
        if 0 < n {
            print!(rt; ", with {second} {n}")?;
        }
    }
    Ok(())
}
