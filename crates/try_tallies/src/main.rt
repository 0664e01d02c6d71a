// New, add, weights and reliability on generated tallies, good and damaged, against a plain reading
// of documents 01 and 02, counted; and ageing, age by age.
#![tactic(auto)]

ghost use Rattle.std.specs.Prelude.{◌≤◌, ◌<◌, IfOk};

use answer::{Rate, Refusal};
use arrayvec::ArrayVec;
use std::io;
use test_answers::number;
use test_support::{pick, poke, put, word};
use test_tallies::{
    Answers, HEAD, PRIME, ROUNDS, SCORE, Sizes, Step, Words, cells_of, changed, copied, due, junk,
    record_of, size, state, step_at, sum,
};

// The calls that are counted.
#[derive(Clone, Copy, Default)]
struct Tried {
    new: Answers,
    add: Answers,
    reliability: Answers,
    weights: Answers,
}

fn show(rt: &impl Print, title: &str, answers: &Answers) -> io::Result<()> {
    println!(rt; "{title}")?;
    for (k, &n) in answers.numbers.iter().enumerate() {
        match (k, n) {
            (_, 0) => {}
            (0, n) => println!(rt; "  good {n}")?,
            (k, n) => println!(rt; "  refused {k} {n}")?,
        }
    }
    if answers.numbers[22] != 0 {
        let [_, score, all_but_score, score_wraps] = answers.faults;
        println!(rt; "  22 by the score alone {score}")?;
        println!(rt; "  22 with the score right {all_but_score}")?;
        println!(rt; "  22 with the score right only modulo 2^32 {score_wraps}")?;
    }
    println!(rt; "  wrong {}", answers.wrong)
}

// ---- new
// How many words a new tally has, or the refusal's number.
fn new_due(s: Sizes, room: usize) -> Result<usize, u32> {
    let end = HEAD + cells_of(s.n1, s.n2).ok_or(6u32)?;
    if room < end { Err(21) } else { Ok(end) }
}

fn try_new(s: Sizes, words: &mut Words, answers: &mut Answers) {
    let mut want = copied(words);
    let due = new_due(s, words.len());
    if let Ok(end) = due {
        for x in want.iter_mut().take(end) {
            *x = 0;
        }
        put(&mut want, 0, s.n1);
        put(&mut want, 1, s.n2);
    }
    let got = number(tally::new(s.n1 as u32, s.n2 as u32, words));
    answers.judge(got, (got == due.err()) & (want == *words));
}

// ---- add
fn try_add(record: &[u8], words: &mut Words, answers: &mut Answers) {
    let refused = due(record, words, Step::Up).err();
    let want = match refused {
        None => changed(record, words, Step::Up),
        Some(_) => copied(words),
    };
    let got = number(tally::add(record, words));
    answers.judge(got, (got == refused) & (want == *words));
    answers.blame(got, words);
}

// The sizes of a record: those of the tally, but for two times in ten.
fn record_sizes(seed: u64, s: Sizes) -> Sizes
    ensures { (s.n1 ≤ 64) × (s.n2 ≤ 64) → (result.n1 ≤ 65) × (result.n2 ≤ 65) }
{
    match pick(seed, 7, 10) {
        0 => Sizes {
            n1: (s.n1 + 1).min(65),
            n2: s.n2,
        },
        1 => Sizes {
            n1: s.n1,
            n2: pick(seed, 8, 65),
        },
        _ => s,
    }
}

// A record is added, in which one time in ten a byte is another, and one time the last is missing.
fn one_add(seed: u64, s: Sizes, words: &mut Words, answers: &mut Answers) {
    let mut record = record_of(seed, record_sizes(seed, s));
    match pick(seed, 7, 10) {
        2 => poke(&mut record, pick(seed, 9, 30) as usize, pick(seed, 10, 256)),
        3 => {
            record.pop();
        }
        _ => {}
    }
    try_add(&record, words, answers);
}

// ---- reliability
// Chances at both sides of the limit, and at random.
fn chance(seed: u64, i: u64) -> u64
    requires { i ≤ 100 }
    ensures { result ≤ 1000001 }
{
    match pick(seed, i, 12) {
        0 => 1000000,
        1 => 1000001,
        2 => 0,
        _ => pick(seed, 500 + i, 1000000),
    }
}

fn rate_due(t: &[u32], p1: u64, p2: u64) -> Result<(), u32>
    ensures { IfOk result (λ _. (p1 ≤ 1000000) × (p2 ≤ 1000000)) }
{
    if (1000000 < p1) | (1000000 < p2) {
        return Err(14);
    }
    state(t)?;
    if word(t, ROUNDS) == 0 {
        Err(25)
    } else {
        Ok(())
    }
}

fn is_rate(k: Rate, t: &[u32], p1: u64, p2: u64) -> bool
    requires { (p1 ≤ 1000000) × (p2 ≤ 1000000) }
{
    let u = test_tallies::weights(p1, size(word(t, 0)));
    let v = test_tallies::weights(p2, size(word(t, 1)));
    let whole = k.rounds.checked_mul(10000000);
    (k.rounds == word(t, ROUNDS))
        & (whole.and_then(|m| k.sum.checked_div(m)) == Some(k.rate))
        & (sum(t, &u, &v) == k.sum % PRIME)
}

fn rate_at(p1: u64, p2: u64, words: &[u32], answers: &mut Answers)
    requires { (p1 ≤ 1000001) × (p2 ≤ 1000001) }
{
    let due = rate_due(words, p1, p2);
    let right = match (reliability::reliability(words, p1 as u32, p2 as u32), due) {
        (Ok(k), Ok(())) => is_rate(k, words, p1, p2),
        (Err(r), Err(n)) => u32::from(r) == n,
        _ => false,
    };
    answers.judge(due.err(), right);
    answers.blame(due.err(), words);
}

fn try_rate(seed: u64, words: &[u32], answers: &mut Answers) {
    rate_at(chance(seed, 11), chance(seed, 12), words, answers)
}

// ---- weights
// The weights for n nodes, or the refusal's number.
fn weights_due(n: u64, p: u64, room: usize) -> Result<ArrayVec<u32, 65>, u32> {
    if 64 < n {
        return Err(6);
    }
    if 1000000 < p {
        return Err(14);
    }
    if room < n as usize + 1 {
        return Err(15);
    }
    Ok(test_tallies::weights(p, n as usize))
}

fn try_weights(seed: u64, answers: &mut Answers) {
    let n = pick(seed, 20, 67);
    let p = chance(seed, 21);
    let room = pick(seed, 22, 68) as usize;
    let mut out = [7; 70];
    let mut want = [7; 70];
    let due = weights_due(n, p, room);
    if let Ok(w) = &due {
        want[..w.len()].copy_from_slice(w);
    }
    let got = number(weights::weights(n as u32, p as u32, &mut out[..room]));
    answers.judge(got, (got == due.err()) & (want == out));
}

// ---- ageing
// The answer is shown: `stdout` has each chance as a figure, so that no formula is tried by itself.
fn show_age(rt: &impl Print, age: u64) -> io::Result<()> {
    match weights::ageing(age) {
        Ok(p) => println!(rt; "  {age} {p}"),
        Err(r) => println!(rt; "  {age} refused {}", u32::from(r)),
    }
}

// Ages 0 to 39; then those that are 0 and 30 in 32 bits, one whose square is 0 in 64, and the largest.
fn show_ages(rt: &impl Print) -> io::Result<()> {
    for age in 0..40 {
        show_age(rt, age)?;
    }
    for age in [4294967296, 4294967326, 9223372036854775808, u64::MAX] {
        show_age(rt, age)?;
    }
    Ok(())
}

// ---- a tally: new, adds, reliability, and the same after a word is damaged
#[derive(Drop)]
struct Case {
    seed: u64,
    sizes: Sizes,
    words: Words,
    ghost below: { seed < 2147483648 },
    ghost small: { (sizes.n1 ≤ 64) × (sizes.n2 ≤ 64) },
}

fn sizes_of(seed: u64, i: u64) -> Sizes
    ensures { (result.n1 ≤ 64) × (result.n2 ≤ 64) }
{
    match i % 7 {
        0 => Sizes { n1: 64, n2: 64 },
        1 => Sizes { n1: 0, n2: 0 },
        _ => Sizes {
            n1: pick(seed, 1, 64),
            n2: pick(seed, 2, 64),
        },
    }
}

// A slice with room and a few words to spare, or one word short, or without a head.
fn room(seed: u64, s: Sizes) -> usize
    ensures { result ≤ 4240 }
{
    let n = cells_of(s.n1, s.n2).unwrap_or(0);
    match pick(seed, 41, 10) {
        0 => HEAD - 1,
        1 => HEAD - 1 + n,
        _ => HEAD + n + pick(seed, 42, 4) as usize,
    }
}

impl Case {
    fn new(i: u64) -> Self {
        let seed = test_support::seed(i);
        let sizes = sizes_of(seed, i);
        let mut words = copied(&[0; 4240][..room(seed, sizes)]);
        junk(seed, &mut words);
        Case { seed, sizes, words }
    }

    // Sizes as they are, or one of them 65.
    fn new_sizes(&self) -> Sizes
        ensures { (result.n1 ≤ 65) × (result.n2 ≤ 65) }
    {
        match pick(self.seed, 40, 12) {
            0 => Sizes {
                n1: 65,
                n2: self.sizes.n2,
            },
            1 => Sizes {
                n1: self.sizes.n1,
                n2: 65,
            },
            _ => self.sizes,
        }
    }

    // A new tally, and its reliability: no rounds.
    fn start(&mut self, tried: &mut Tried) {
        try_new(self.new_sizes(), &mut self.words, &mut tried.new);
        try_rate(self.seed + 2, &self.words, &mut tried.reliability);
    }

    fn adds(&mut self, tried: &mut Tried) {
        for j in 0..6 {
            let seed = self.seed % 1000000000 + j * 977;
            one_add(seed, self.sizes, &mut self.words, &mut tried.add);
        }
    }

    // An add, and reliability.
    fn try_both(&mut self, tried: &mut Tried) {
        one_add(self.seed, self.sizes, &mut self.words, &mut tried.add);
        try_rate(self.seed + 1, &self.words, &mut tried.reliability);
    }

    // The same with a score that is off by one; afterwards the words are as they were.
    fn off_score(&mut self, step: Step, tried: &mut Tried) {
        let score = word(&self.words, SCORE);
        step_at(&mut self.words, SCORE, step);
        self.try_both(tried);
        put(&mut self.words, SCORE, score);
    }

    // The same with cells whose sum is the score only modulo 2^32.
    fn wrapped(&mut self, tried: &mut Tried) {
        test_tallies::wrap(&mut self.words);
        self.try_both(tried);
        test_tallies::wrap(&mut self.words);
    }

    // Adds and reliability, and both again with a score that is not the cells' sum, and after a word is
    // damaged.
    fn go_on(&mut self, tried: &mut Tried) {
        self.adds(tried);
        try_rate(self.seed, &self.words, &mut tried.reliability);
        self.off_score(Step::Up, tried);
        self.off_score(Step::Down, tried);
        self.wrapped(tried);
        let n = cells_of(self.sizes.n1, self.sizes.n2).unwrap_or(0);
        test_tallies::damage(self.seed, n as u64, &mut self.words);
        self.try_both(tried);
    }
}

fn try_tally(i: u64, tried: &mut Tried) {
    let mut case = Case::new(i);
    case.start(tried);
    case.go_on(tried);
    try_weights(case.seed, &mut tried.weights);
}

// n1 above 64, in three words and in four.
fn heads(tried: &mut Tried) {
    for n in [3, 4] {
        let mut words = copied(&[65, 0, 0, 0]);
        words.truncate(n);
        try_add(&[0; 3], &mut words, &mut tried.add);
        rate_at(0, 0, &words, &mut tried.reliability);
    }
}

// A front that always holds, added where every cell is m: a sum above 16 bits, and the largest there are.
fn levels(tried: &mut Tried) {
    for m in [16, 99999, 100000] {
        let mut words = test_tallies::level(m);
        try_add(&[64, 64, 1, 65, 65], &mut words, &mut tried.add);
        rate_at(999999, 1000000, &words, &mut tried.reliability);
    }
}

fn main(rt: HostRuntime) -> io::Result<()> {
    let mut tried = Tried::default();
    for i in 0..700 {
        try_tally(i, &mut tried);
    }
    heads(&mut tried);
    levels(&mut tried);
    show(&rt, "new", &tried.new)?;
    show(&rt, "add", &tried.add)?;
    show(&rt, "reliability", &tried.reliability)?;
    show(&rt, "weights", &tried.weights)?;
    println!(&rt; "ageing")?;
    show_ages(&rt)
}
