// Runs the writer, opening and lookup on generated studies, good and damaged, and compares every
// answer and every byte with a plain reading of the study file that shares no code with the library.
// Then each limit from both sides.
#![tactic(auto)]

mod edges;

ghost use Rattle.std.specs.Prelude.{◌≤◌, length};

use std::io;
use test_answers::number;
use test_counts::{Answers, opened_right, tick, wrote_right};
use test_files::{File, Sections, UNTOUCHED};
use test_studies::{Study, damaged_file, some};

// ---- counts
// Classes of one size, by the sorts of members that they have.
#[derive(Clone, Copy, Default)]
struct Sorts {
    nodes_alone: u64,
    arcs_alone: u64,
    both: u64,
}

impl Sorts {
    fn note(&mut self, nodes: usize, arcs: usize) {
        tick(&mut self.nodes_alone, arcs == 0);
        tick(&mut self.arcs_alone, nodes == 0 && arcs != 0);
        tick(&mut self.both, nodes != 0 && arcs != 0);
    }

    fn show(&self, rt: &impl Print, name: &str) -> io::Result<()> {
        println!(rt; "{name}")?;
        println!(rt; "  of nodes alone {}", self.nodes_alone)?;
        println!(rt; "  of arcs alone {}", self.arcs_alone)?;
        println!(rt; "  of nodes and arcs {}", self.both)
    }
}

#[derive(Drop)]
struct Counts {
    wrong: u64,
    writer: Answers,
    opening: Answers,
    lookup: Answers,
    // classes of 64 and of 65 members
    largest: Sorts,
    too_large: Sorts,
}

// ---- calls
// Opening, and the seven values of a success.
fn try_open(file: &[u8], counts: &mut Counts)
    requires { length file.now ≤ 10000 }
{
    let due = test_files::opening(file);
    let right = opened_right(file, due, study::open_study(file));
    counts.opening.judge(due, right, &mut counts.wrong);
}

// Both calls of lookup.
fn try_round(file: &[u8], round: usize, counts: &mut Counts)
    requires { length file.now ≤ 10000 }
{
    let due = test_files::check(file, round);
    let bytes = if due.first.is_none() {
        test_files::round(file, round)
    } else {
        b""
    };
    let right = number(study::check_round(file, round)) == due.first
        && study::round_bytes(file, round) == bytes;
    counts.lookup.judge(due, right, &mut counts.wrong);
}

// The writer into a slice of this room, and every byte behind it; `file` is made into what is due.
fn try_write(s: Sections<'_>, short: usize, file: &mut File, counts: &mut Counts)
    requires { (length s.nodes.now ≤ 200) × (length s.arcs.now ≤ 3200) × (length s.rounds.now ≤ 4001) × (s.numbers.rounds ≤ 200000) × (short ≤ 100) }
{
    test_files::file(s, 0, file);
    // One byte short, exactly long enough, or longer.
    let room = file.len() + short - 1;
    let due = test_files::given(s).note(room < file.len(), 15);
    let k = s.numbers;
    let mut out = [UNTOUCHED; 8192];
    let got = writer::write_study(
        s.nodes,
        s.arcs,
        s.rounds,
        k.source,
        k.target,
        k.rounds,
        &mut out[..room],
    );
    let right = wrote_right(file, due, got, &out);
    counts.writer.judge(due, right, &mut counts.wrong);
}

// Opening, and lookup of the first round, of some round, of the one past the last, of the largest.
fn try_file(file: &[u8], seed: u64, total: usize, counts: &mut Counts)
    requires { (length file.now ≤ 10000) × (total ≤ 200000) }
{
    try_open(file, counts);
    for round in [0, some(seed, 52, total), total, usize::MAX] {
        try_round(file, round, counts);
    }
}

// ---- studies
// Counts a class of 64 or 65 members by the sorts that it has.
fn note_class(s: &Study, class: usize, counts: &mut Counts)
    requires { class ≤ 2 }
{
    let nodes = test_files::of_class(&s.nodes, class);
    let arcs = test_files::arcs_of_class(&s.arcs, class);
    match nodes + arcs {
        64 => counts.largest.note(nodes, arcs),
        65 => counts.too_large.note(nodes, arcs),
        _ => {}
    }
}

// The study of a seed: written, laid out by hand and damaged, opened, its rounds looked up. The file
// may have held anything.
fn try_study(seed: u64, file: &mut File, counts: &mut Counts) {
    let s = Study::of(seed);
    note_class(&s, 1, counts);
    note_class(&s, 2, counts);
    try_write(s.sections(), some(seed, 50, 4), file, counts);
    damaged_file(seed, s.sections(), file);
    try_file(file, seed, s.numbers.rounds, counts);
}

fn main(rt: HostRuntime) -> io::Result<()> {
    let mut counts = Counts {
        wrong: 0,
        writer: Answers::new(),
        opening: Answers::new(),
        lookup: Answers::new(),
        largest: Sorts::default(),
        too_large: Sorts::default(),
    };
    let mut file = File::new();
    for i in 0..6000 {
        try_study(test_support::seed(i), &mut file, &mut counts);
    }
    counts.largest.show(&rt, "classes of 64 members")?;
    counts.too_large.show(&rt, "classes of 65 members")?;
    counts.writer.show(&rt, "writer")?;
    counts.opening.show(&rt, "opening")?;
    counts.lookup.show(&rt, "lookup, check and part")?;
    println!(&rt; "limits, 0 for a success")?;
    edges::try_limits(&rt, &mut counts.wrong)?;
    println!(&rt; "wrong {}", counts.wrong)
}
