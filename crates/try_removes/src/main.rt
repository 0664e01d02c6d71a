// Lists of adds and removes, legal and not, and the score after each step, against a plain reading of
// documents 01 and 02, counted.
#![tactic(auto)]

ghost use Rattle.std.specs.Prelude.{◌≤◌, ◌<◌};

use std::io;
use test_answers::number;
use test_support::{byte, pick, put, word};
use test_tallies::{
    Answers, Causes, HEAD, ROUNDS, Record, SCORE, Sizes, Step, Words, causes_of, cell_sum,
    cells_of, change, changed, copied, count, due, junk, record_of, state,
};

// What is counted: the answers; the causes of 31 where a remove answers 31, 22 or 23; scores by the
// tally, and of the first words; and what the last lines of the output say.
#[derive(Clone, Copy, Default)]
struct Counts {
    adds: Answers,
    removes: Answers,
    causes: [u64; 8],
    unsound: [u64; 8],
    sizes: [u64; 8],
    scores: [u64; 5],
    heads: [u64; 5],
    own: u64,
    remained: u64,
    restored: u64,
    strangers: u64,
    wrong: u64,
}

// Counts at a place that the counts have.
fn tick(counts: &mut [u64], at: usize) {
    if let Some(n) = counts.get_mut(at) {
        count(n);
    }
}

// ---- one call
fn call(record: &[u8], step: Step, words: &mut Words) -> Option<u32> {
    number(match step {
        Step::Up => tally::add(record, words),
        Step::Down => tally::remove(record, words),
    })
}

// By cause of 31: 1 for M, 2 for a cell, 4 for the outcome, or their sum.
fn tick_cause(counts: &mut [u64; 8], causes: Causes) {
    let at = u8::from(causes.rounds) + 2 * u8::from(causes.cell) + 4 * u8::from(causes.outcome);
    tick(counts, usize::from(at));
}

// ---- the score
#[derive(Clone, Copy)]
enum Kind {
    Sound,
    Unsound,
    // the cells do not fit
    Short,
    // a size is above 64
    Large,
    // below four words
    Headless,
}

fn kind_of(words: &[u32]) -> Kind {
    if words.len() < HEAD {
        return Kind::Headless;
    }
    if (64 < word(words, 0)) | (64 < word(words, 1)) {
        return Kind::Large;
    }
    match state(words) {
        Ok(()) => Kind::Sound,
        Err(21) => Kind::Short,
        Err(_) => Kind::Unsound,
    }
}

// The score's word, or the number of a refusal.
fn is_score(words: &[u32]) -> bool {
    let due = words.get(SCORE).copied().ok_or(21);
    tally::score(words).map_err(u32::from) == due
}

// The score is the word; the sum of all cells too where nothing but calls changed the tally.
fn try_score(own: bool, words: &[u32], counts: &mut Counts) {
    if is_score(words) {
        tick(&mut counts.scores, kind_of(words) as usize);
    } else {
        count(&mut counts.wrong);
    }
    if own {
        let whole = tally::score(words).is_ok_and(|n| u64::from(n) == cell_sum(words));
        count(if whole {
            &mut counts.own
        } else {
            &mut counts.wrong
        });
    }
}

// The score of the first words of a tally, or of none where it has fewer.
fn try_heads(words: &[u32], counts: &mut Counts) {
    for k in 0..=HEAD {
        let head = words.get(..k).unwrap_or(&[]);
        if is_score(head) {
            tick(&mut counts.heads, head.len());
        } else {
            count(&mut counts.wrong);
        }
    }
}

// ---- a step
// An add or a remove, and the score; what the first answered.
fn made(
    record: &[u8],
    step: Step,
    own: bool,
    words: &mut Words,
    counts: &mut Counts,
) -> Option<u32> {
    let got = call(record, step, words);
    try_score(own, words, counts);
    got
}

// The same against the plain reading.
fn try_move(
    record: &[u8],
    step: Step,
    own: bool,
    words: &mut Words,
    counts: &mut Counts,
) -> Option<u32> {
    let refused = due(record, words, step).err();
    let want = match refused {
        None => changed(record, words, step),
        Some(_) => copied(words),
    };
    let got = made(record, step, own, words, counts);
    let answers = match step {
        Step::Up => &mut counts.adds,
        Step::Down => &mut counts.removes,
    };
    answers.judge(got, (got == refused) & (want == *words));
    answers.blame(got, words);
    match (step, got) {
        (Step::Down, Some(31)) => tick_cause(&mut counts.causes, causes_of(record, &want)),
        (Step::Down, Some(22)) => tick_cause(&mut counts.unsound, causes_of(record, &want)),
        (Step::Down, Some(23)) => tick_cause(&mut counts.sizes, causes_of(record, &want)),
        _ => {}
    }
    got
}

// A remove that succeeds, and an add of the same record: the words are as they were.
fn try_back(record: &[u8], own: bool, words: &mut Words, counts: &mut Counts) {
    let was = copied(words);
    if made(record, Step::Down, own, words, counts).is_some() {
        return;
    }
    let again = made(record, Step::Up, own, words, counts).is_none();
    let right = again & (was == *words);
    count(if right {
        &mut counts.restored
    } else {
        &mut counts.wrong
    });
}

// ---- a list
// A record of a list, and how many times it was added and not yet removed.
#[derive(Drop)]
struct Entry {
    record: Record,
    held: u64,
}

// Moves from a seed. Where the list is legal a remove is of a record that was added and not yet
// removed. Whether nothing but calls changed the tally since it was new.
#[derive(Clone, Copy)]
struct List {
    seed: u64,
    legal: bool,
    own: bool,
}

// Whether a record was added and not yet removed.
fn is_held(record: &Record, entries: &[Entry]) -> bool {
    entries.iter().any(|e| (0 < e.held) & (e.record == *record))
}

// Entry k once its record is added or removed.
fn hold(entries: &mut [Entry], k: usize, step: Step) {
    if let Some(entry) = entries.get_mut(k) {
        entry.held = match step {
            Step::Up => entry.held.saturating_add(1),
            Step::Down => entry.held.saturating_sub(1),
        };
    }
}

impl List {
    // Move j of a list.
    fn step(self, j: u64, entries: &mut [Entry], words: &mut Words, counts: &mut Counts)
        requires { j ≤ 100 }
    {
        let k = pick(self.seed, 300 + j, 4) as usize % 4;
        let Some(entry) = entries.get(k) else {
            return;
        };
        let up = (pick(self.seed, 400 + j, 9) < 5) | (self.legal & (entry.held == 0));
        let step = if up { Step::Up } else { Step::Down };
        let refused = try_move(&entry.record, step, self.own, words, counts).is_some();
        let strange = !up & !is_held(&entry.record, entries);
        if self.legal & refused {
            count(&mut counts.wrong);
        } else if self.own & !refused & strange {
            count(&mut counts.strangers);
        }
        if !refused {
            hold(entries, k, step);
        }
    }

    fn steps(self, entries: &mut [Entry], words: &mut Words, counts: &mut Counts) {
        for entry in entries.iter_mut() {
            entry.held = 0;
        }
        for j in 0..24 {
            self.step(j, entries, words, counts);
        }
    }

    // A list; after a legal one the words are those of the adds that remain, the last record's first.
    fn run(self, entries: &mut [Entry], words: &mut Words, counts: &mut Counts) {
        let mut want = copied(words);
        self.steps(entries, words, counts);
        if self.legal {
            for entry in entries.iter().rev() {
                for _ in 0..entry.held {
                    change(&entry.record, &mut want, Step::Up);
                }
            }
            let right = want == *words;
            count(if right {
                &mut counts.remained
            } else {
                &mut counts.wrong
            });
        }
    }
}

// ---- what lists are made of
fn sizes_of(seed: u64, i: u64) -> Sizes
    ensures { (result.n1 ≤ 64) × (result.n2 ≤ 64) }
{
    if i % 29 == 0 {
        return Sizes { n1: 64, n2: 64 };
    }
    let most = if i % 3 == 0 { 7 } else { 24 };
    Sizes {
        n1: pick(seed, 1, most),
        n2: pick(seed, 2, most),
    }
}

fn is_legal(seed: u64) -> bool {
    pick(seed, 4, 2) == 0
}

// M from 0 to 3, or near 100,000.
fn rounds_of(seed: u64) -> u64 {
    let m = pick(seed, 50, 4);
    if pick(seed, 51, 3) == 0 { m + 99998 } else { m }
}

// The n pairs of a record behind its first `skip`.
fn part_of(record: &[u8], skip: usize, n: usize) -> Record
    requires { (skip ≤ 255) × (n ≤ 255) }
{
    let start = 3 + 2 * skip;
    let mut part = Record::new();
    part.push(byte(record, 0) as u8);
    part.push(byte(record, 1) as u8);
    part.push(n as u8);
    let _ = part.try_extend_from_slice(record.get(start..start + 2 * n).unwrap_or(&[]));
    part
}

// Record k of a list. Where the list is not legal, records 0 and 1 have half of the pairs of record 2
// each, so that it can be removed once both are added; and record 3 has one more than the tally's n1.
fn make_record(seed: u64, s: Sizes, k: u64) -> Record
    requires { (k ≤ 4) × (seed < 2147483648) }
{
    match k {
        _ if is_legal(seed) => record_of(seed + k, s),
        0 | 1 => {
            let whole = record_of(seed + 2, s);
            let n = byte(&whole, 2) as usize;
            if k == 0 {
                part_of(&whole, 0, n - n / 2)
            } else {
                part_of(&whole, n / 2, n - n / 2)
            }
        }
        2 => record_of(seed + k, s),
        _ => record_of(
            seed + k,
            Sizes {
                n1: (s.n1 + 1).min(65),
                n2: s.n2,
            },
        ),
    }
}

fn make_entry(seed: u64, s: Sizes, k: u64) -> Entry
    requires { (k ≤ 4) × (seed < 2147483648) }
{
    Entry {
        record: make_record(seed, s, k),
        held: 0,
    }
}

// A slice with room and a few words to spare; for a list that is not legal also one word short, and
// at most four words.
fn room(seed: u64, s: Sizes) -> usize
    ensures { result ≤ 4240 }
{
    let end = HEAD + cells_of(s.n1, s.n2).unwrap_or(0);
    match pick(seed, 5, 13) {
        0 if !is_legal(seed) => end - 1,
        1 if !is_legal(seed) => pick(seed, 6, 5) as usize,
        _ => end + pick(seed, 3, 4) as usize,
    }
}

// A list on a new tally, or on one with another M; and any list after a word is damaged.
fn try_case(i: u64, counts: &mut Counts) {
    let seed = test_support::seed(i);
    let s = sizes_of(seed, i);
    let mut entries = [
        make_entry(seed, s, 0),
        make_entry(seed, s, 1),
        make_entry(seed, s, 2),
        make_entry(seed, s, 3),
    ];
    let mut words = copied(&[0; 4240][..room(seed, s)]);
    junk(seed, &mut words);
    let made = tally::new(s.n1 as u32, s.n2 as u32, &mut words).is_ok();
    let legal = is_legal(seed);
    let own = made & (legal | (pick(seed, 54, 2) == 0));
    try_score(own, &words, counts);
    if !own {
        put(&mut words, ROUNDS, rounds_of(seed));
    }
    List { seed, legal, own }.run(&mut entries, &mut words, counts);
    try_back(&entries[0].record, own, &mut words, counts);
    test_tallies::damage(seed, 40, &mut words);
    let list = List {
        seed: seed + 1,
        legal: false,
        own: false,
    };
    list.steps(&mut entries, &mut words, counts);
    try_heads(&words, counts);
}

// A front that always holds, added and removed where every cell is m: a sum above 16 bits, and the
// largest there are.
fn levels(counts: &mut Counts) {
    for m in [16, 99999, 100000] {
        let mut words = test_tallies::level(m);
        for step in [Step::Up, Step::Down] {
            try_move(&[64, 64, 1, 65, 65], step, false, &mut words, counts);
        }
    }
}

// ---- output
// A title, and the counts that are not 0, by their places.
fn show(rt: &impl Print, title: &str, name: &str, counts: &[u64]) -> io::Result<()> {
    println!(rt; "{title}")?;
    for (k, &n) in counts.iter().enumerate() {
        if n != 0 {
            println!(rt; "  {name} {k}: {n}")?;
        }
    }
    Ok(())
}

fn show_moves(rt: &impl Print, counts: &Counts) -> io::Result<()> {
    show(rt, "adds", "number", &counts.adds.numbers)?;
    show(
        rt,
        "adds that answered 22, by fault: 1 the score alone, 2 not the score, 3 a score right only modulo 2^32, 0 both",
        "fault",
        &counts.adds.faults,
    )?;
    show(rt, "removes", "number", &counts.removes.numbers)?;
    show(
        rt,
        "removes that answered 22, by fault",
        "fault",
        &counts.removes.faults,
    )
}

fn show_causes(rt: &impl Print, counts: &Counts) -> io::Result<()> {
    show(
        rt,
        "removes that answered 31, by cause: 1 M, 2 a cell, 4 the outcome, or their sum",
        "cause",
        &counts.causes,
    )?;
    show(
        rt,
        "removes that answered 22, by cause of 31",
        "cause",
        &counts.unsound,
    )?;
    show(
        rt,
        "removes that answered 23, by cause of 31",
        "cause",
        &counts.sizes,
    )
}

fn show_scores(rt: &impl Print, counts: &Counts) -> io::Result<()> {
    show(
        rt,
        "scores after a step, by the tally: 0 sound, 1 not, 2 cells do not fit, 3 a size above 64, 4 under four words: 21",
        "tally",
        &counts.scores,
    )?;
    show(
        rt,
        "scores of the first words: 21 under four",
        "words",
        &counts.heads,
    )
}

fn show_rest(rt: &impl Print, counts: &Counts) -> io::Result<()> {
    println!(rt;
        "scores that are the sum of all cells, where nothing but calls changed the tally {}",
        counts.own
    )?;
    println!(rt;
        "legal lists whose words are those of the adds that remain {}",
        counts.remained
    )?;
    println!(rt;
        "removes added back that restored the words {}",
        counts.restored
    )?;
    println!(rt;
        "removes of a front that was not added, on tallies that nothing but calls changed {}",
        counts.strangers
    )?;
    let calls = counts.adds.wrong.saturating_add(counts.removes.wrong);
    println!(rt; "wrong {}", counts.wrong.saturating_add(calls))
}

fn main(rt: HostRuntime) -> io::Result<()> {
    let mut counts = Counts::default();
    for i in 0..2000 {
        try_case(i, &mut counts);
    }
    levels(&mut counts);
    show_moves(&rt, &counts)?;
    show_causes(&rt, &counts)?;
    show_scores(&rt, &counts)?;
    show_rest(&rt, &counts)
}
