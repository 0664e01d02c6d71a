// Tallies, their scores and reliability of searched rounds, against the rounds that removal testing
// finds to hold and exact arithmetic on them.
#![tactic(auto)]

ghost use Rattle.std.specs.Prelude.{◌≤◌, ◌<◌};

use answer::Rate;
use test_exact::Between;
use test_removal::{Cells, Found, held};
use test_support::{pick, times};

// How many rates a tally is tried at, and how many ages there are.
pub const RATES: u64 = 4;

pub const AGES: u64 = 31;

// The words that a tally is given: more than it takes.
const WORDS: usize = 4240;

// ---- tallies
// What a word held before the tally.
fn old(i: usize) -> u32
    ensures { result < 1000 }
{
    (i % 5000 * 77777 % 1000) as u32
}

// What is due to a tally of rounds: the class sizes, how many rounds it has, and in how many of them
// each cell holds.
#[derive(Drop)]
struct Due {
    n1: usize,
    n2: usize,
    rounds: u32,
    cells: Cells<u8>,
    ghost sizes: { (n1 ≤ 64) × (n2 ≤ 64) },
}

impl Due {
    // The sum of all cells; past the class sizes they are 0.
    fn score(&self) -> u32 {
        let cells = self.cells.as_flattened().iter();
        cells
            .map(|cell| u32::from(*cell))
            .fold(0, u32::saturating_add)
    }

    // The word that the tally has at a place: n1, n2, M, the score, a cell, or what it held.
    fn word(&self, i: usize) -> u32 {
        match i {
            0 => self.n1 as u32,
            1 => self.n2 as u32,
            2 => self.rounds,
            3 => self.score(),
            _ => {
                let l1 = (i - 4) / (self.n2 + 1);
                let l2 = (i - 4) % (self.n2 + 1);
                if l1 > self.n1 {
                    old(i)
                } else {
                    u32::from(self.cells[l1][l2])
                }
            }
        }
    }

    // How many words are not what is due.
    fn differ(&self, words: &[u32; WORDS]) -> u64
        ensures { result ≤ 4240 }
    {
        let wrong = words
            .iter()
            .enumerate()
            .filter(|(i, word)| **word != self.word(*i));
        wrong.count() as u64
    }
}

// A new tally, an add for each round, and the score: what is wrong.
fn wrong_tally(due: &Due, rounds: &[Found], words: &mut [u32; WORDS]) -> u64 {
    for (i, word) in words.iter_mut().enumerate() {
        *word = old(i);
    }
    let mut refused = u64::from(tally::new(due.n1 as u32, due.n2 as u32, words).is_err());
    for round in rounds {
        let added = tally::add(&round.record, words);
        refused = refused.saturating_add(u64::from(added.is_err()));
    }
    let score = tally::score(words).ok() != Some(due.score());
    refused
        .saturating_add(u64::from(score))
        .saturating_add(due.differ(words))
}

// ---- reliability
// The ages at which the chance is not 1,000,000 − 1,000 × y².
pub fn wrong_ages() -> u64
    ensures { result ≤ 31 }
{
    let mut wrong: u64 = 0;
    for y in 0..AGES {
        let due = 1000000u64.saturating_sub(1000 * times(y, y));
        let chance = weights::ageing(y).ok().map(u64::from);
        wrong += u64::from(chance != Some(due));
    }
    wrong
}

// 0, 1,000,000, the house's chance for an age, or any.
fn chance(seed: u64, j: u64) -> u32
    requires { j ≤ 100 }
    ensures { result ≤ 1000000 }
{
    match pick(seed, 9000 + j, 6) {
        0 => 0,
        1 => 1000000,
        2 | 3 => {
            let aged = weights::ageing(pick(seed, 9100 + j, 31));
            aged.unwrap_or(0).min(1000000)
        }
        _ => pick(seed, 9200 + j, 1000001).min(1000000) as u32,
    }
}

// Document 01's bounds, each side divided by D: E over D is e over 10^14 for eight rounds.
fn within(k: Rate, n: u64, e: Between) -> bool
    requires { n ≤ 128 }
{
    if (k.sum > 800000000000000) | (k.rate > 10000000) {
        return false;
    }
    (k.rounds == 8)
        & (k.sum <= e.floor)
        & (e.ceiling <= k.sum + n * 80000000)
        & (k.rate * 80000000 <= e.floor)
        & (e.floor < (k.rate + n + 1) * 80000000)
}

// How many of four pairs of chances give a wrong rate.
fn wrong_rates(seed: u64, due: &Due, words: &[u32]) -> u64
    ensures { result ≤ 4 }
{
    let mut wrong: u64 = 0;
    for j in 0..RATES {
        let p1 = chance(seed, 2 * j);
        let p2 = chance(seed, 2 * j + 1);
        let exact = test_exact::exact(&due.cells, due.n1, due.n2, u64::from(p1), u64::from(p2));
        let right = match reliability::reliability(words, p1, p2) {
            Ok(rate) => within(rate, (due.n1 + due.n2) as u64, exact),
            Err(_) => false,
        };
        wrong += u64::from(!right);
    }
    wrong
}

// The tally of eight rounds, and its reliability at four pairs of chances: what is wrong.
pub fn try_tally(seed: u64, n1: usize, n2: usize, rounds: &[Found]) -> u64
    requires { (n1 ≤ 64) × (n2 ≤ 64) }
{
    let mut words = [0u32; WORDS];
    let due = Due {
        n1,
        n2,
        rounds: 8,
        cells: held(rounds, n1, n2),
    };
    let wrong = wrong_tally(&due, rounds, &mut words);
    wrong.saturating_add(wrong_rates(seed, &due, &words))
}
