// Reliability: the chance that a round of a tally holds.
#![tactic(auto)]

ghost use Rattle.std.specs.Prelude.{◌≡◌, ℕ, ◌+◌, ◌*◌, ◌≤◌, ◌<◌, length};
ghost use Rattle.limits.specs.Limits.{max_class};
ghost use Rattle.answer.specs.Outcome.{rated};
ghost use Rattle.chance.specs.Chance.{rate_r};
ghost use Rattle.soundness.specs.Tally.{rounds};
ghost use Rattle.reliability.specs.Calls.{tally_s, rate_answer};
ghost use Rattle.reliability.specs.Steps.{row_sum, rows_sum, Ratable};

use answer::{Rate, Refusal};
use limits::MAX_CLASS;
use soundness::{HEAD, ROUNDS};

// A row of cells, each times the weight of its place.
fn row(cells: &[u32], at: usize, v: &[u32], n: usize) -> u64
    requires { (at + n ≤ length cells.now) × (n ≤ length v.now) × (row_sum cells.now at v.now n ≤ 1000000000000) }
    ensures { result ≡ row_sum cells.now at v.now n }
{
    let mut s: u64 = 0;
    for i in 0..n {
        s += v[i] as u64 * cells[at + i] as u64;
    }
    s
}

// Document 01's S: the rows, each times the weight of its count.
fn total(cells: &[u32], u: &[u32], v: &[u32], n1: usize, n2: usize) -> u64
    requires { (n1 ≤ max_class) × (n2 ≤ max_class) × ((n1 + 1) * (n2 + 1) ≤ length cells.now) × (n1 < length u.now) × (n2 < length v.now)
        × ((l1 : ℕ) → l1 ≤ n1 → row_sum cells.now (l1 * (n2 + 1)) v.now (n2 + 1) ≤ 1000000000000)
        × (rows_sum cells.now u.now v.now n2 (n1 + 1) ≤ 10000000000000000000) }
    ensures { result ≡ rows_sum cells.now u.now v.now n2 (n1 + 1) }
{
    let w = n2 + 1;
    let mut s: u64 = 0;
    for l1 in 0..=n1 {
        s += u[l1] as u64 * row(cells, l1 * w, v, w);
    }
    s
}

// S, M and R of a sound tally of some rounds.
fn rate_of(tally: &[u32], p1: u32, p2: u32) -> Rate
    requires { Ratable tally.now p1 p2 }
    ensures { (result.sum ≡ tally_s tally.now p1 p2) × (result.rounds ≡ rounds tally.now)
        × (result.rate ≡ rate_r (tally_s tally.now p1 p2) (rounds tally.now)) }
{
    let n1 = tally[0] as usize;
    let n2 = tally[1] as usize;
    let mut u = [0u32; MAX_CLASS + 1];
    let mut v = [0u32; MAX_CLASS + 1];
    weights::fill(p1, n1, &mut u);
    weights::fill(p2, n2, &mut v);
    let sum = total(&tally[HEAD..], &u, &v, n1, n2);
    let rounds = tally[ROUNDS] as u64;
    Rate {
        sum,
        rounds,
        rate: sum / (rounds * 10000000),
    }
}

// The reliability of a tally at two chances: numbers 14, 21, 22 and 25, or S, M and R.
pub fn reliability(tally: &[u32], p1: u32, p2: u32) -> Result<Rate, Refusal>
    ensures { rated result ≡ rate_answer tally.now p1 p2 }
{
    if (p1 > 1000000) | (p2 > 1000000) {
        return Err(Refusal::Probability);
    }
    // No `?`: it would call std, whose code `AlwaysEnds` (kinds) cannot open.
    if let Err(r) = soundness::check(tally) {
        return Err(r);
    }
    if tally[ROUNDS] == 0 {
        return Err(Refusal::NoRounds);
    }
    Ok(rate_of(tally, p1, p2))
}
