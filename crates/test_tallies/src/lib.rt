// A plain reading of documents 01 and 02 for tallies, weights and reliability, cell by cell: no code
// is shared with the library.
#![tactic(auto)]

ghost use Rattle.arrayvec.specs.ArrayVec.{array_vec_len};
ghost use Rattle.std.specs.Prelude.{◌+◌, ◌*◌, ◌≤◌, ◌<◌, IfSome, length};

use arrayvec::ArrayVec;
use test_support::{byte, pick, put, record_holds, word};

// The place of M, and of the score, and the words before a tally's cells.
pub const ROUNDS: usize = 2;

pub const SCORE: usize = 3;

pub const HEAD: usize = 4;

// Room for the words of any tally, and for a few to spare.
pub type Words = ArrayVec<u32, 4240>;

pub type Record = ArrayVec<u8, 64>;

// 2^32: every word is below it.
const LIMIT: u64 = 4294967296;

// What an add and a remove do to M and to each cell of the front.
#[derive(Clone, Copy)]
pub enum Step {
    Up,
    Down,
}

// A word after a step, modulo 2^32.
pub fn stepped(x: u32, step: Step) -> u32 {
    match step {
        Step::Up => x.wrapping_add(1),
        Step::Down => x.wrapping_sub(1),
    }
}

// The same for the word at a place, where there is one.
pub fn step_at(t: &mut [u32], at: usize, step: Step) {
    if let Some(x) = t.get_mut(at) {
        *x = stepped(*x, step);
    }
}

pub fn copied(words: &[u32]) -> Words
    requires { length words.now ≤ 4240 }
{
    let Ok(copy) = Words::try_from(words) else {
        unreachable!();
    };
    copy
}

// Words that are no tally's.
pub fn junk(seed: u64, t: &mut [u32]) {
    for (i, x) in t.iter_mut().enumerate() {
        *x = pick(seed, i as u64, 5) as u32;
    }
}

// ---- counts
pub fn count(n: &mut u64) {
    *n = n.saturating_add(1);
}

// What a call answered: how often each number, at 0 the successes; 22 by fault; and the wrong answers.
#[derive(Clone, Copy, Default)]
pub struct Answers {
    pub numbers: [u64; 32],
    pub faults: [u64; 4],
    pub wrong: u64,
}

impl Answers {
    pub fn judge(&mut self, got: Option<u32>, right: bool) {
        if let Some(n) = self.numbers.get_mut(got.unwrap_or(0) as usize) {
            count(n);
        }
        if !right {
            count(&mut self.wrong);
        }
    }

    // Counts the fault of a tally that was answered by 22.
    pub fn blame(&mut self, got: Option<u32>, t: &[u32]) {
        if got == Some(22) {
            if let Some(n) = self.faults.get_mut(fault_of(t) as usize) {
                count(n);
            }
        }
    }
}

// ---- records
// The sizes of a tally or of a record: 64 at most, or one more where they are to be refused.
#[derive(Clone, Copy)]
pub struct Sizes {
    pub n1: u64,
    pub n2: u64,
    ghost small: { (n1 ≤ 70) × (n2 ≤ 70) },
}

// Pairs at random, p1 falling and p2 rising.
pub fn record_of(seed: u64, s: Sizes) -> Record
    ensures { array_vec_len result ≤ 60 }
{
    let mut record = Record::new();
    record.push(s.n1 as u8);
    record.push(s.n2 as u8);
    record.push(0);
    let mut p1 = s.n1 + 2;
    let mut p2 = 0;
    for i in 0..12 {
        let down = 1 + pick(seed, 100 + i, 9);
        let q2 = p2 + 1 + pick(seed, 200 + i, 9);
        if (p1 <= down) | (s.n2 + 1 < q2) {
            continue;
        }
        p1 -= down;
        p2 = q2;
        record.push(p1 as u8);
        record.push(p2 as u8);
    }
    record[2] = (record.len() - 3) as u8 / 2;
    record
}

fn is_record(r: &[u8]) -> bool {
    let [n1, n2, k, pairs @ ..] = r else {
        return false;
    };
    let (n1, n2) = (u64::from(*n1), u64::from(*n2));
    let mut good = (n1 <= 64) & (n2 <= 64) & (pairs.len() == 2 * usize::from(*k));
    let mut p1 = n1 + 2;
    let mut p2 = 0;
    for pair in pairs.chunks_exact(2) {
        let (q1, q2) = (byte(pair, 0), byte(pair, 1));
        good &= (0 < q1) & (q1 < p1) & (p2 < q2) & (q2 <= n2 + 1);
        (p1, p2) = (q1, q2);
    }
    good
}

// ---- tallies
// How many cells a tally of these sizes has, where it may be.
pub fn cells_of(n1: u64, n2: u64) -> Option<usize>
    ensures { IfSome result (λ n. n ≤ 4225) }
{
    if (64 < n1) | (64 < n2) {
        return None;
    }
    Some((n1 as usize + 1) * (n2 as usize + 1))
}

// A size as it counts for the cells: as 0 above 64.
pub fn size(x: u64) -> usize
    ensures { result ≤ 64 }
{
    if 64 < x { 0 } else { x as usize }
}

// How many cells a row has.
fn width(t: &[u32]) -> usize
    ensures { (0 < result) × (result ≤ 65) }
{
    size(word(t, 1)) + 1
}

// Where the cells end, as the sizes have it.
fn end(t: &[u32]) -> usize
    ensures { (4 ≤ result) × (result ≤ 4229) }
{
    HEAD + (size(word(t, 0)) + 1) * width(t)
}

// The cells, as far as the slice has them.
fn cells(t: &[u32]) -> &[u32]
    ensures { length result.now ≤ 4225 }
{
    let end = end(t).min(t.len());
    t.get(HEAD..end).unwrap_or(&[])
}

// The same, for writing.
fn cells_mut(t: &mut [u32]) -> &mut [u32] {
    let end = end(t).min(t.len());
    t.get_mut(HEAD..end).unwrap_or(&mut [])
}

// The sum of all cells, whole.
pub fn cell_sum(t: &[u32]) -> u64 {
    let mut sum = 0;
    for &x in cells(t) {
        sum += u64::from(x);
    }
    sum
}

// Document 01's sound: sizes, M, and the cells one by one.
fn is_fair(t: &[u32]) -> bool {
    let cells = cells(t);
    let width = width(t);
    let below = cells.get(width..).unwrap_or(&[]);
    let rounds = word(t, ROUNDS);
    (word(t, 0) <= 64)
        & (word(t, 1) <= 64)
        & (rounds <= 100000)
        & cells.iter().all(|&x| u64::from(x) <= rounds)
        & cells.iter().zip(below).all(|(x, y)| x <= y)
        & cells.chunks_exact(width).all(|row| row.is_sorted())
}

fn is_sound(t: &[u32]) -> bool {
    is_fair(t) & (cell_sum(t) == word(t, SCORE))
}

// Of an unsound tally: what alone is wrong.
#[derive(Clone, Copy)]
pub enum Fault {
    Other,
    Score,
    AllButScore,
    // the score is the cells' sum only modulo 2^32
    ScoreWraps,
}

pub fn fault_of(t: &[u32]) -> Fault {
    if (64 < word(t, 0)) | (64 < word(t, 1)) {
        return Fault::Other;
    }
    let sum = cell_sum(t);
    if sum == word(t, SCORE) {
        return Fault::AllButScore;
    }
    if is_fair(t) {
        return Fault::Score;
    }
    if sum % LIMIT == word(t, SCORE) {
        Fault::ScoreWraps
    } else {
        Fault::Other
    }
}

// 2^31 more, modulo 2^32, in each of the last two cells: where there are two, the cells' sum is
// another, and the same modulo 2^32. Twice is nothing.
pub fn wrap(t: &mut [u32]) {
    let end = end(t);
    if HEAD + 2 <= end {
        for at in [end - 2, end - 1] {
            if let Some(x) = t.get_mut(at) {
                *x = x.wrapping_add(1 << 31);
            }
        }
    }
}

// Puts the sum of all cells in the score's word.
fn put_score(t: &mut [u32]) {
    let sum = cell_sum(t);
    put(t, SCORE, sum);
}

// A word changed: a size near 64 or any, M small or near 100,000, the score by one, two cells to wrap
// the sum, or one of n cells. Most often the score is told anew for another word, so that nothing else
// is wrong.
pub fn damage(seed: u64, n: u64, t: &mut [u32]) {
    let x = pick(seed, 32, 5);
    let size = if x < 3 { 63 + x } else { pick(seed, 33, 70) };
    match pick(seed, 30, 11) {
        0 => put(t, 0, size),
        1 => put(t, 1, size),
        2 => put(t, ROUNDS, if x == 0 { 0 } else { x + 99998 }),
        3 => return step_at(t, SCORE, Step::Up),
        4 => return step_at(t, SCORE, Step::Down),
        5 => return wrap(t),
        _ => put(t, HEAD + pick(seed, 31, n) as usize % 4225, x),
    }
    if pick(seed, 34, 5) != 0 {
        put_score(t);
    }
}

// Whether a tally is sound, or else 21 or 22.
pub fn state(t: &[u32]) -> Result<(), u32> {
    let small = (word(t, 0) <= 64) & (word(t, 1) <= 64);
    if (t.len() < HEAD) | (small & (t.len() < end(t))) {
        return Err(21);
    }
    if is_sound(t) { Ok(()) } else { Err(22) }
}

// What an add and a remove refuse first.
fn ready(r: &[u8], t: &[u32]) -> Result<(), u32> {
    if !is_record(r) {
        return Err(12);
    }
    state(t)?;
    if (byte(r, 0) != word(t, 0)) | (byte(r, 1) != word(t, 1)) {
        return Err(23);
    }
    Ok(())
}

// The answer of an add or a remove. A word of 0 that is lowered becomes the largest, which no sound
// tally of 100,000 rounds at most has: so the outcome tells every cause of 31.
pub fn due(r: &[u8], t: &Words, step: Step) -> Result<(), u32> {
    ready(r, t)?;
    match step {
        Step::Up if word(t, ROUNDS) == 100000 => Err(24),
        Step::Up => Ok(()),
        Step::Down if is_sound(&changed(r, t, step)) => Ok(()),
        Step::Down => Err(31),
    }
}

// An add or a remove, cell by cell, and the score anew from the cells.
pub fn change(r: &[u8], t: &mut [u32], step: Step) {
    step_at(t, ROUNDS, step);
    let (n1, n2) = (size(word(t, 0)), size(word(t, 1)));
    for (k, x) in cells_mut(t).iter_mut().enumerate() {
        let a = n1.saturating_sub(k / (n2 + 1));
        let b = n2 - k % (n2 + 1);
        if record_holds(r, a as u64, b as u64) {
            *x = stepped(*x, step);
        }
    }
    put_score(t);
}

pub fn changed(r: &[u8], t: &Words, step: Step) -> Words {
    let mut after = copied(t);
    change(r, &mut after, step);
    after
}

// n1 = n2 = 64, and every cell is m, modulo 2^32, which is M: no sum is larger for this M.
pub fn level(m: u64) -> Words {
    let mut words = [0; 4240];
    words[0] = 64;
    words[1] = 64;
    words[ROUNDS..HEAD + 4225].fill((m % LIMIT) as u32);
    put_score(&mut words);
    Words::from(words)
}

// The causes of 31, alone or together, whatever else is wrong: M is 0, a cell to be lowered is, the
// outcome is not sound, with 0 for what would fall below it. A cell that the slice does not have is 0.
#[derive(Clone, Copy)]
pub struct Causes {
    pub rounds: bool,
    pub cell: bool,
    pub outcome: bool,
}

pub fn causes_of(r: &[u8], t: &Words) -> Causes {
    let mut left = [0; 4240];
    for (x, &y) in left.iter_mut().zip(t.as_slice()) {
        *x = y;
    }
    change(r, &mut left, Step::Down);
    let rounds = left.get_mut(ROUNDS..SCORE).is_some_and(settle);
    let cell = left.get_mut(HEAD..).is_some_and(settle);
    put_score(&mut left);
    Causes {
        rounds,
        cell,
        outcome: !is_sound(&left),
    }
}

// Puts 0 for each largest word, and tells whether there was one.
fn settle(words: &mut [u32]) -> bool {
    let mut found = false;
    for x in words {
        if *x == u32::MAX {
            *x = 0;
            found = true;
        }
    }
    found
}

// ---- weights, from the last place to the first
fn sent(w: u64, p: u64) -> u64
    requires { (w < 4294967296) × (p ≤ 1000000) }
    ensures { result ≤ w }
{
    (w * p / 1000000).min(w)
}

// One more node, for which the last place is free.
fn node(p: u64, out: &mut [u32])
    requires { p ≤ 1000000 }
{
    for l in (0..out.len()).rev() {
        let x = word(out, l);
        let y = if l == 0 { 0 } else { word(out, l - 1) };
        put(out, l, x - sent(x, p) + sent(y, p));
    }
}

pub fn weights(p: u64, n: usize) -> ArrayVec<u32, 65>
    requires { (p ≤ 1000000) × (n ≤ 64) }
{
    let mut out = ArrayVec::new();
    out.push(10000000);
    for _ in 0..n {
        out.push(0);
        node(p, &mut out);
    }
    out
}

// A prime.
pub const PRIME: u64 = 999999937;

fn times(x: u32, y: u32) -> u32
    ensures { result < 999999937 }
{
    (u64::from(x) * u64::from(y) % PRIME) as u32
}

// S modulo the prime: cell by cell, in one sum.
pub fn sum(t: &[u32], u: &[u32], v: &[u32]) -> u64 {
    let mut s = 0;
    for (row, &y) in cells(t).chunks_exact(width(t)).zip(u) {
        for (&x, &z) in row.iter().zip(v) {
            s = (s % PRIME + u64::from(times(times(x, y), z))) % PRIME;
        }
    }
    s
}
