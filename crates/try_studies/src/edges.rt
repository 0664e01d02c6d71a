// Each limit from both sides, and numbers that apply together: lists of cases, each with the number
// that is due from the library and from the plain reading, 0 for a success.
ghost use Rattle.std.specs.Prelude.{◌≡◌, ◌*◌, ◌≤◌, ◌<◌, length};

use std::io;
use test_answers::number;
use test_counts::tick;
use test_files::{File, Judged, Sections, piece};
use test_studies::{entries, first_of_class, from_0_to_1};

// Library and plain reading against what is due; what the library answered.
fn check(got: Option<u32>, want: Judged, due: u32, wrong: &mut u64) -> u32 {
    let got = got.unwrap_or(0);
    tick(wrong, got != due || want.first.unwrap_or(0) != due);
    got
}

// ---- sections
fn writes(rt: &impl Print, s: Sections<'_>, due: u32, wrong: &mut u64) -> io::Result<()>
    requires { s.numbers.rounds < 4294967296 }
{
    let mut out = [0; 4096];
    let total = s.numbers.rounds;
    let got = writer::write_study(s.nodes, s.arcs, s.rounds, 0, 1, total, &mut out);
    let got = check(number(got), test_files::given(s), due, wrong);
    println!(rt; "writer {got}")
}

fn opens(rt: &impl Print, file: &[u8], due: u32, wrong: &mut u64) -> io::Result<()>
    requires { length file.now ≤ 10000 }
{
    let got = number(study::open_study(file));
    let got = check(got, test_files::opening(file), due, wrong);
    print!(rt; ": opening {got}")
}

// Without rounds opening refuses what the writer does.
fn tries(
    rt: &impl Print,
    nodes: &[u8],
    arcs: &[u8],
    total: u32,
    due: u32,
    wrong: &mut u64,
) -> io::Result<()>
    requires { (length nodes.now ≤ 161) × (length arcs.now ≤ 3075) }
{
    let sections = Sections {
        nodes,
        arcs,
        rounds: b"",
        numbers: from_0_to_1(arcs.len() / 3, total as usize),
    };
    let mut file = File::new();
    test_files::file(sections, 0, &mut file);
    opens(rt, &file, due, wrong)?;
    print!(rt; ", ")?;
    writes(rt, sections, due, wrong)
}

// N, A, M, and what is due.
const COUNTS: [[u32; 4]; 8] = [
    [1, 0, 0, 2],
    [2, 0, 0, 0],
    [160, 0, 0, 0],
    [161, 0, 0, 2],
    [2, 1024, 0, 0],
    [2, 1025, 0, 2],
    [2, 0, 100000, 0],
    [2, 0, 100001, 2],
];

fn try_counts(rt: &impl Print, wrong: &mut u64) -> io::Result<()> {
    let nodes = first_of_class(0, 0);
    let arcs = entries(&[0, 1, 0]);
    for [n, a, m, due] in COUNTS {
        print!(rt; "N {n} A {a} M {m}")?;
        tries(
            rt,
            piece(&nodes, 0, n as usize),
            piece(&arcs, 0, 3 * a as usize),
            m,
            due,
            wrong,
        )?;
    }
    Ok(())
}

// Arc bytes up to 6.
fn try_arc_bytes(rt: &impl Print, wrong: &mut u64) -> io::Result<()> {
    let arcs = entries(&[0, 1, 0]);
    for n in 0..7 {
        let sections = Sections {
            nodes: &[0, 0],
            arcs: &arcs[..n],
            rounds: b"",
            numbers: from_0_to_1(n / 3, 0),
        };
        print!(rt; "arc bytes {n}: ")?;
        writes(rt, sections, if n % 3 == 0 { 0 } else { 2 }, wrong)?;
    }
    Ok(())
}

// A class, its nodes, its arcs, and what is due. The arcs lead one way in class 1 and both ways in
// class 2.
const SIZES: [[u8; 4]; 12] = [
    [1, 64, 0, 0],
    [1, 65, 0, 6],
    [1, 0, 64, 0],
    [1, 0, 65, 6],
    [1, 30, 34, 0],
    [1, 64, 1, 6],
    [2, 64, 0, 0],
    [2, 65, 0, 6],
    [2, 0, 64, 0],
    [2, 0, 65, 6],
    [2, 1, 63, 0],
    [2, 33, 32, 6],
];

fn try_sizes(rt: &impl Print, wrong: &mut u64) -> io::Result<()> {
    for [class, x, y, due] in SIZES {
        let nodes = first_of_class(usize::from(class), usize::from(x));
        let arcs = entries(&[0, 1, if class == 1 { 1 } else { 5 }]);
        print!(rt; "class {class} nodes {x} arcs {y}")?;
        let arcs = piece(&arcs, 0, 3 * usize::from(y));
        tries(rt, piece(&nodes, 0, 160), arcs, 0, u32::from(due), wrong)?;
    }
    Ok(())
}

fn show_bytes(rt: &impl Print, name: &str, bytes: &[u8]) -> io::Result<()> {
    print!(rt; "{name}")?;
    for x in bytes {
        print!(rt; " {x}")?;
    }
    Ok(())
}

// Two arcs among 160 nodes, how many nodes are of class 1, the class of the last, and what is due.
// 5, 8, 32 and 6, alone and together, in one entry and in two.
const TWO_ARCS: [([u8; 6], usize, u8, u32); 19] = [
    ([0, 1, 0, 0, 1, 0], 0, 2, 0),
    ([0, 1, 0, 0, 1, 0], 0, 3, 5),
    ([0, 1, 5, 0, 1, 0], 0, 2, 0),
    ([0, 1, 6, 0, 1, 0], 0, 2, 32),
    ([0, 1, 0, 0, 1, 255], 0, 2, 32),
    ([0, 159, 3, 159, 0, 4], 0, 2, 0),
    ([0, 160, 0, 0, 1, 0], 0, 2, 8),
    ([0, 1, 0, 160, 0, 0], 0, 2, 8),
    ([7, 7, 0, 0, 1, 0], 0, 2, 8),
    ([0, 1, 6, 7, 7, 0], 0, 2, 8),
    ([0, 160, 0, 0, 1, 6], 0, 2, 8),
    ([0, 160, 6, 0, 1, 0], 0, 2, 8),
    ([0, 1, 6, 0, 1, 0], 0, 3, 5),
    ([0, 1, 6, 0, 1, 0], 65, 2, 32),
    ([7, 7, 0, 0, 1, 0], 65, 2, 8),
    ([0, 1, 5, 0, 1, 0], 65, 2, 6),
    ([0, 1, 7, 0, 1, 0], 64, 2, 32),
    ([0, 1, 1, 0, 1, 0], 64, 2, 6),
    ([0, 1, 4, 0, 1, 0], 63, 2, 0),
];

fn try_arcs(rt: &impl Print, wrong: &mut u64) -> io::Result<()> {
    for (arcs, ones, class, due) in TWO_ARCS {
        let mut nodes = first_of_class(1, ones);
        nodes[159] = class;
        show_bytes(rt, "arcs", &arcs)?;
        print!(rt; ", {ones} nodes of class 1, the last of class {class}")?;
        tries(rt, piece(&nodes, 0, 160), &arcs, 0, due, wrong)?;
    }
    Ok(())
}

// ---- two rounds of two members of class 1 and one of class 2, an arc in each
const NODES: [u8; 3] = [0, 0, 1];

const ARCS: [u8; 6] = [0, 2, 4, 2, 1, 2];

// Bytes of both rounds, how many of them are passed, and what is due.
const ORDERS: [([u8; 7], usize, u32); 8] = [
    ([0, 1, 0, 1, 0, 0, 0], 6, 0),
    ([0, 1, 0, 1, 0, 0, 0], 5, 9),
    ([0, 1, 0, 1, 0, 0, 0], 7, 9),
    ([0, 1, 0, 2, 0, 0, 0], 6, 11),
    ([0, 1, 0, 1, 1, 0, 0], 6, 11),
    ([0, 1, 0, 1, 0, 1, 0], 6, 11),
    ([2, 1, 0, 1, 0, 0, 0], 6, 11),
    ([2, 1, 0, 1, 0, 0, 0], 7, 9),
];

fn try_orders(rt: &impl Print, wrong: &mut u64) -> io::Result<()> {
    for (rounds, n, due) in ORDERS {
        let sections = Sections {
            nodes: &NODES,
            arcs: &ARCS,
            rounds: piece(&rounds, 0, n),
            numbers: from_0_to_1(2, 2),
        };
        show_bytes(rt, "rounds", sections.rounds)?;
        print!(rt; ": ")?;
        writes(rt, sections, due, wrong)?;
    }
    Ok(())
}

// Their file with a byte in front: s 0, t 1, dN 15, dA 12, dM 6, the trailer at 16.
fn small_file() -> File
    ensures { length result.items ≡ 48 }
{
    test_studies::small_file(&NODES, &ARCS, &[0, 1, 0, 1, 0, 0])
}

// A number of the trailer by its place, what it is set to, and what is due.
const TRAILER: [[u8; 3]; 20] = [
    [0, 3, 0],
    [0, 4, 4],
    [0, 2, 8],
    [1, 3, 4],
    [1, 1, 0],
    [2, 3, 9],
    [2, 1, 0],
    [3, 2, 0],
    [3, 3, 3],
    [3, 1, 3],
    [4, 2, 0],
    [4, 3, 3],
    [4, 0, 3],
    [5, 14, 4],
    [5, 16, 0],
    [5, 17, 4],
    [6, 11, 4],
    [6, 13, 4],
    [7, 5, 9],
    [7, 7, 4],
];

fn try_trailer(rt: &impl Print, wrong: &mut u64) -> io::Result<()> {
    for [k, n, due] in TRAILER {
        let mut file = small_file();
        if let Some(x) = file.get_mut(16 + 4 * usize::from(k)) {
            *x = n;
        }
        print!(rt; "trailer's number {k} is {n}")?;
        opens(rt, &file, u32::from(due), wrong)?;
        println!(rt;)?;
    }
    Ok(())
}

// ---- lengths and round numbers
fn try_length(rt: &impl Print, n: usize, due: u32, wrong: &mut u64) -> io::Result<()>
    requires { n ≤ 40 }
{
    print!(rt; "length {n}")?;
    opens(rt, &[0; 40][..n], due, wrong)?;
    println!(rt;)
}

fn try_lookup(rt: &impl Print, round: usize, due: u32, wrong: &mut u64) -> io::Result<()> {
    let file = small_file();
    let got = number(study::check_round(&file, round));
    let got = check(got, test_files::check(&file, round), due, wrong);
    println!(rt; "round {round} of 2: lookup {got}")
}

pub fn try_limits(rt: &impl Print, wrong: &mut u64) -> io::Result<()> {
    try_length(rt, 31, 1, wrong)?;
    try_length(rt, 32, 2, wrong)?;
    try_counts(rt, wrong)?;
    try_arc_bytes(rt, wrong)?;
    try_sizes(rt, wrong)?;
    try_arcs(rt, wrong)?;
    try_trailer(rt, wrong)?;
    try_orders(rt, wrong)?;
    try_lookup(rt, 1, 0, wrong)?;
    try_lookup(rt, 2, 10, wrong)
}
