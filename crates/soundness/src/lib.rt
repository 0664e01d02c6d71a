// A tally's words, and whether it is sound.
#![tactic(auto)]

ghost use Rattle.std.specs.Prelude.{◌≡◌, ◌+◌, ◌*◌, ◌≤◌, length};
ghost use Rattle.limits.specs.Limits.{max_class};
ghost use Rattle.answer.specs.Outcome.{done};
ghost use Rattle.soundness.specs.Tally.{state_answer};
ghost use Rattle.soundness.specs.Steps.{cut, rises_by, sum_from, rows_rise, is_fair};

use answer::Refusal;
use limits::{MAX_CLASS, MAX_ROUNDS};

// The words in front of the cells: n1, n2, M, score; and the places of M and of the score.
pub const HEAD: usize = 4;

pub const ROUNDS: usize = 2;

pub const SCORE: usize = 3;

// The words of the largest tally.
pub const LARGEST: usize = HEAD + (MAX_CLASS + 1) * (MAX_CLASS + 1);

// M of a tally that takes no more rounds.
pub const FULL: u32 = MAX_ROUNDS as u32;

// What a pass over cells finds: whether each is at most another, and their sum, cut to a word. No Option:
// a pass without a branch finds both.
#[derive(Clone, Copy)]
struct Passed {
    rises: bool,
    sum: u32,
}

// A sum cut to a word: half the width of a whole one, and exact where no cell is above M. Not
// `wrapping_add`: it would call std, whose code `AlwaysEnds` (kinds) cannot open.
fn cut_sum(x: u32, y: u32) -> u32
    ensures { result ≡ cut (x + y) }
{
    ((x as u64 + y as u64) % 4294967296) as u32
}

// Whether each of `count` cells from a place on is at most the one `step` places later, and their
// sum.
fn pass_over(cells: &[u32], at: usize, count: usize, step: usize) -> Passed
    requires { at + count + step ≤ length cells.now }
    ensures rises { result.rises ≡ rises_by cells.now at step count }
    ensures sum { result.sum ≡ cut (sum_from cells.now at count) }
{
    let mut rises = true;
    let mut sum = 0;
    for i in 0..count {
        let x = cells[at + i];
        rises &= x <= cells[at + i + step];
        sum = cut_sum(sum, x);
    }
    Passed { rises, sum }
}

// Whether each cell is at most the next in its row.
fn rows_rise(cells: &[u32], n1: usize, n2: usize) -> bool
    requires { (n1 ≤ max_class) × (n2 ≤ max_class) × ((n1 + 1) * (n2 + 1) ≤ length cells.now) }
    ensures { result ≡ rows_rise cells.now n2 (n1 + 1) }
{
    let mut rise = true;
    for l1 in 0..=n1 {
        rise &= pass_over(cells, l1 * (n2 + 1), n2, 1).rises;
    }
    rise
}

// Whether the last cell is at most m, no cell falls as l1 or l2 grows, and the score is the cells'
// sum: the pass from row to row has all of it but the last row's.
fn is_fair(cells: &[u32], n1: usize, n2: usize, m: u32, score: u32) -> bool
    requires { (n1 ≤ max_class) × (n2 ≤ max_class) × ((n1 + 1) * (n2 + 1) ≤ length cells.now) }
    ensures { result ≡ is_fair cells.now n1 n2 m score }
{
    let w = n2 + 1;
    let k = n1 * w;
    let last = cells[k + n2];
    let rows = pass_over(cells, 0, k, w);
    let row = pass_over(cells, k, n2, 1);
    let sum = cut_sum(rows.sum, cut_sum(row.sum, last));
    (last <= m) & (rows.rises & rows_rise(cells, n1, n2)) & (score == sum)
}

// Numbers 21 and 22: whether the slice has room for its cells, and the tally is sound.
pub fn check(tally: &[u32]) -> Result<(), Refusal>
    ensures { done result ≡ state_answer tally.now }
{
    let [n1, n2, rounds, score, ..] = tally else {
        return Err(Refusal::TallyShort);
    };
    let cells = &tally[HEAD..];
    let n1 = *n1 as usize;
    let n2 = *n2 as usize;
    if (n1 > MAX_CLASS) | (n2 > MAX_CLASS) {
        return Err(Refusal::TallyUnsound);
    }
    if cells.len() < (n1 + 1) * (n2 + 1) {
        return Err(Refusal::TallyShort);
    }
    if *rounds > FULL {
        return Err(Refusal::TallyUnsound);
    }
    if !is_fair(cells, n1, n2, *rounds, *score) {
        return Err(Refusal::TallyUnsound);
    }
    Ok(())
}
