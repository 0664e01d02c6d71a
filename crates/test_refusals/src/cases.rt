// A case: document 01's sample ring, and what the calls are passed with it.
ghost use Rattle.std.specs.Prelude.{◌≤◌, ◌<◌};

use crate::{Answer, Call, told};
use answer::Refusal;
use test_answers::number;

// The words of the ring's tallies.
pub(crate) const WORDS: usize = 13;

// Sizes and numbers that are passed.
#[derive(Clone, Copy)]
pub(crate) enum Number {
    Nodes,
    Arcs,
    RoundBytes,
    Source,
    Target,
    Rounds,
    FileRoom,
    FileLength,
    Round,
    FrontRoom,
    LeftLength,
    RightLength,
    RecordRoom,
    TallyLength,
    Chance1,
    Chance2,
    Class1,
    Class2,
    WeightsRoom,
    Age,
}

// One thing that is changed in a case: a number, a byte of a section of the file or of a record, a
// word of the tally, or all its words.
#[derive(Clone, Copy)]
pub(crate) enum Change {
    Number(Number, u32),
    Node(usize, u8),
    Arc(usize, u8),
    Order(usize, u8),
    Trailer(usize, u8),
    Left(usize, u8),
    Right(usize, u8),
    Tally(usize, u32),
    Whole([u32; WORDS]),
}

// The numbers, a study file, two records and a tally. Between the file's nodes and its arcs stand
// 65 bytes that make a class too large if read as nodes.
#[derive(Clone, Copy, PartialEq, Eq)]
pub(crate) struct Case {
    numbers: [u32; 20],
    file: [u8; 128],
    left: [u8; 9],
    right: [u8; 5],
    tally: [u32; WORDS],
}

// Where the file's arcs, its round and its trailer begin.
const ARCS: usize = 71;

const ROUND: usize = 92;

const TRAILER: usize = 96;

// Writes to a place that the slice has.
fn set<T: Copy + Drop>(values: &mut [T], at: usize, value: T) {
    if let Some(place) = values.get_mut(at) {
        *place = value;
    }
}

// The first values of a slice, at most n.
fn first<T>(values: &[T], n: usize) -> &[T] {
    values.get(..n).unwrap_or(values)
}

// What a call answers that fills the first values of an array, at most n: a refusal leaves them as
// they were.
fn lend<
    T: Copy + PartialEq + Drop,
    const N: usize,
    A: Drop,
    F: FnOnce(&mut [T]) -> Result<A, Refusal> + Drop,
>(before: [T; N], n: usize, call: F) -> Answer
    requires { F.IsAlwaysCallable call }
{
    let mut out = before;
    let room = &mut out[..n.min(N)];
    let refusal = number(call(room));
    told(refusal, out == before)
}

impl Case {
    pub(crate) fn good() -> Case {
        let mut file = [1u8; 128];
        file[..6].copy_from_slice(&[0, 0, 1, 1, 2, 2]);
        file[ARCS..ROUND].copy_from_slice(&[
            0, 2, 0, 2, 4, 0, 4, 1, 0, 0, 3, 0, 3, 1, 0, 0, 5, 0, 5, 1, 0,
        ]);
        file[ROUND..TRAILER].copy_from_slice(&[1, 0, 1, 0]);
        file[TRAILER..].copy_from_slice(&[
            6, 0, 0, 0, 7, 0, 0, 0, 1, 0, 0, 0, 0, 0, 0, 0, 1, 0, 0, 0, 96, 0, 0, 0, 25, 0, 0, 0,
            4, 0, 0, 0,
        ]);
        Case {
            numbers: [
                6, 21, 4, 0, 1, 1, 63, 128, 0, 9, 9, 5, 7, 13, 500000, 500000, 2, 2, 3, 30,
            ],
            file,
            left: [2, 2, 3, 3, 1, 2, 2, 1, 3],
            right: [2, 2, 1, 2, 3],
            tally: [2, 2, 1, 0, 0, 0, 0, 0, 0, 0, 0, 0, 0],
        }
    }

    pub(crate) fn with(mut self, change: Change) -> Case {
        match change {
            Change::Number(number, value) => self.numbers[number as usize] = value,
            Change::Node(at, value) => set(&mut self.file, at, value),
            Change::Arc(at, value) => set(&mut self.file[ARCS..], at, value),
            Change::Order(at, value) => set(&mut self.file[ROUND..], at, value),
            Change::Trailer(at, value) => set(&mut self.file[TRAILER..], at, value),
            Change::Left(at, value) => set(&mut self.left, at, value),
            Change::Right(at, value) => set(&mut self.right, at, value),
            Change::Tally(at, value) => set(&mut self.tally, at, value),
            Change::Whole(tally) => self.tally = tally,
        }
        self
    }

    fn word(&self, number: Number) -> u32 {
        self.numbers[number as usize]
    }

    fn size(&self, number: Number) -> usize
        ensures { result < 4294967296 }
    {
        self.word(number) as usize
    }

    fn left(&self) -> &[u8] {
        first(&self.left, self.size(Number::LeftLength))
    }

    fn right(&self) -> &[u8] {
        first(&self.right, self.size(Number::RightLength))
    }

    fn file(&self) -> &[u8] {
        first(&self.file, self.size(Number::FileLength))
    }

    fn tally(&self) -> &[u32] {
        first(&self.tally, self.size(Number::TallyLength))
    }

    // What the call's room holds before it: the numbers' low bytes, then the file's first.
    fn before(&self) -> [u8; 64] {
        let mut bytes = [0; 64];
        bytes[20..].copy_from_slice(&self.file[..44]);
        for (byte, number) in bytes.iter_mut().zip(self.numbers) {
            *byte = (number % 256) as u8;
        }
        bytes
    }

    fn write(&self, out: &mut [u8]) -> Result<usize, Refusal> {
        writer::write_study(
            first(&self.file, self.size(Number::Nodes)),
            first(&self.file[ARCS..], self.size(Number::Arcs)),
            first(&self.file[ROUND..], self.size(Number::RoundBytes)),
            self.size(Number::Source),
            self.size(Number::Target),
            self.size(Number::Rounds),
            out,
        )
    }

    // Lookup: its part is empty where the check refuses.
    fn look_up(&self) -> Answer {
        let round = self.size(Number::Round);
        let refusal = number(study::check_round(self.file(), round));
        let due = if refusal.is_none() {
            &self.file[ROUND..TRAILER]
        } else {
            &[]
        };
        if study::round_bytes(self.file(), round) == due {
            told(refusal, true)
        } else {
            Answer::Wrong
        }
    }

    // The score is its word.
    fn score(&self) -> Answer {
        match tally::score(self.tally()) {
            Ok(score) if score != self.tally[3] => Answer::Wrong,
            answer => told(number(answer), true),
        }
    }

    // What a call answers.
    pub(crate) fn run(&self, call: Call) -> Answer {
        let before = self.before();
        let n1 = self.word(Number::Class1);
        let n2 = self.word(Number::Class2);
        let p1 = self.word(Number::Chance1);
        let p2 = self.word(Number::Chance2);
        match call {
            Call::Writer => lend(before, self.size(Number::FileRoom), |out| self.write(out)),
            Call::Search => lend(before, self.size(Number::FrontRoom), |out| {
                search::search(self.file(), self.size(Number::Round), out)
            }),
            Call::Series => lend(before, self.size(Number::RecordRoom), |out| {
                compose::series(self.left(), self.right(), out)
            }),
            Call::Parallel => lend(before, self.size(Number::RecordRoom), |out| {
                compose::parallel(self.left(), self.right(), out)
            }),
            Call::New => lend(self.tally, self.size(Number::TallyLength), |words| {
                tally::new(n1, n2, words)
            }),
            Call::Add => lend(self.tally, self.size(Number::TallyLength), |words| {
                tally::add(self.left(), words)
            }),
            Call::Remove => lend(self.tally, self.size(Number::TallyLength), |words| {
                tally::remove(self.left(), words)
            }),
            Call::Weights => lend(self.tally, self.size(Number::WeightsRoom), |words| {
                weights::weights(n1, p1, words)
            }),
            Call::Opening => told(number(study::open_study(self.file())), true),
            Call::Lookup => self.look_up(),
            Call::Ageing => told(
                number(weights::ageing(u64::from(self.word(Number::Age)))),
                true,
            ),
            Call::Reliability => told(number(reliability::reliability(self.tally(), p1, p2)), true),
            Call::Score => self.score(),
        }
    }
}
