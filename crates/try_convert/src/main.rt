// Runs the converter on generated old study files, good and damaged, and compares every answer and
// every byte with a plain reading that shares no code with the library; the fronts of converted
// studies against removal testing on the old ones. Nothing in a file tells its form: opening reads
// the old files as new ones, and the converter new files as old ones.
#![tactic(auto)]

mod edges;
mod fronts;
mod made;

ghost use Rattle.std.specs.Prelude.{◌≤◌, length};

use std::io;
use test_counts::{Answers, opened_right, tick, wrote_right};
use test_files::{File, Judged, UNTOUCHED};
use test_studies::{Study, damaged_file, some};

// Slices exactly long enough, and longer ones.
#[derive(Clone, Copy, Default)]
struct Rooms {
    exact: u64,
    longer: u64,
}

#[derive(Drop)]
pub struct Counts {
    pub wrong: u64,
    old_files: Answers,
    new_files: Answers,
    opening: Answers,
    rooms: Rooms,
    // fronts, and their pairs
    pub fronts: u64,
    pub pairs: u64,
}

// ---- calls
// What is due from the converter, and whether it came. A refusal leaves all bytes, whether there is
// room or not; a good file goes into a slice one byte short, exactly long enough or longer.
fn convert(file: &[u8], short: usize) -> (Judged, bool)
    requires { (length file.now ≤ 10000) × (short ≤ 4) }
{
    let due = test_old_files::converting(file);
    if due.first.is_some() {
        let mut out = [UNTOUCHED; 256];
        let got = convert::convert(file, &mut out[..60 * short]);
        return (due, wrote_right(b"", due, got, &out));
    }
    let Some(new) = test_old_files::convert(file) else {
        return (due, false);
    };
    let due = due.note(short == 0, 15);
    let mut out = [UNTOUCHED; 30003];
    let got = convert::convert(file, &mut out[..new.len() + short - 1]);
    (due, wrote_right(&new, due, got, &out))
}

fn try_convert(file: &[u8], seed: u64, answers: &mut Answers, rooms: &mut Rooms, wrong: &mut u64)
    requires { length file.now ≤ 10000 }
{
    let short = some(seed, 50, 4);
    let (due, right) = convert(file, short);
    answers.judge(due, right, wrong);
    let good = due.first.is_none();
    tick(&mut rooms.exact, good && short == 1);
    tick(&mut rooms.longer, good && 1 < short);
}

// Opening, which reads an old file as a new one; a success tells class sizes with the arcs in them.
fn try_opening(file: &[u8], counts: &mut Counts)
    requires { length file.now ≤ 10000 }
{
    let due = test_files::opening(file);
    let right = opened_right(file, due, study::open_study(file));
    counts.opening.judge(due, right, &mut counts.wrong);
}

// The old file of a seed, and its new file as an old one. The file may have held anything.
fn try_seed(seed: u64, file: &mut File, counts: &mut Counts) {
    made::old_file(seed, file);
    try_convert(
        file,
        seed,
        &mut counts.old_files,
        &mut counts.rooms,
        &mut counts.wrong,
    );
    try_opening(file, counts);
    damaged_file(seed, Study::of(seed).sections(), file);
    try_convert(
        file,
        seed,
        &mut counts.new_files,
        &mut counts.rooms,
        &mut counts.wrong,
    );
}

fn main(rt: HostRuntime) -> io::Result<()> {
    let mut counts = Counts {
        wrong: 0,
        old_files: Answers::new(),
        new_files: Answers::new(),
        opening: Answers::new(),
        rooms: Rooms::default(),
        fronts: 0,
        pairs: 0,
    };
    let mut file = File::new();
    for i in 0..3000 {
        try_seed(test_support::seed(i), &mut file, &mut counts);
    }
    fronts::try_fronts(&mut counts);
    counts.old_files.show(&rt, "converter, old files")?;
    counts.new_files.show(&rt, "converter, new files")?;
    println!(&rt;
        "converter, slices exactly long enough {}",
        counts.rooms.exact
    )?;
    println!(&rt; "converter, longer slices {}", counts.rooms.longer)?;
    counts.opening.show(&rt, "opening, old files")?;
    println!(&rt; "fronts compared {}", counts.fronts)?;
    println!(&rt; "pairs listed {}", counts.pairs)?;
    println!(&rt; "limits of the converter, 0 for a success")?;
    edges::try_limits(&rt, &mut counts.wrong)?;
    println!(&rt; "wrong {}", counts.wrong)
}
