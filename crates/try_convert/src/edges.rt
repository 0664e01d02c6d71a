// Each limit of the converter from both sides: lists of cases, each with the number that is due from
// the library and from the plain reading, 0 for a success.
ghost use Rattle.std.specs.Prelude.{◌≡◌, ◌≤◌, length};
ghost use Rattle.arrayvec.specs.ArrayVec.{array_vec_len};

use std::io;
use test_answers::number;
use test_counts::tick;
use test_files::{File, Sections, piece};
use test_studies::{entries, first_of_class, from_0_to_1};

// A file, the room for the new one, and what is due.
fn try_file(rt: &impl Print, file: &[u8], room: usize, due: u32, wrong: &mut u64) -> io::Result<()>
    requires { (length file.now ≤ 10000) × (room ≤ 4096) }
{
    let mut out = [0; 4096];
    let got = number(convert::convert(file, &mut out[..room])).unwrap_or(0);
    let want = test_old_files::converting(file).first.unwrap_or(0);
    tick(wrong, got != due || (want != due && due != 15));
    println!(rt; ": converter {got}")
}

// N, A, M, a class, how many nodes are of it, where the arcs from 0 lead, and what is due: 2, 6 and
// 8, and 6 before 8.
const SECTIONS: [(usize, u32, u32, usize, usize, u8, u32); 15] = [
    (1, 0, 0, 1, 0, 1, 2),
    (2, 0, 0, 1, 0, 1, 0),
    (160, 0, 0, 1, 0, 1, 0),
    (161, 0, 0, 1, 0, 1, 2),
    (2, 1024, 0, 1, 0, 1, 0),
    (2, 1025, 0, 1, 0, 1, 2),
    (2, 0, 100000, 1, 0, 1, 0),
    (2, 0, 100001, 1, 0, 1, 2),
    (160, 0, 0, 1, 64, 1, 0),
    (160, 0, 0, 1, 65, 1, 6),
    (160, 3, 0, 2, 64, 159, 0),
    (160, 3, 0, 2, 64, 160, 8),
    (160, 3, 0, 2, 64, 0, 8),
    (160, 3, 0, 2, 65, 160, 6),
    (160, 3, 0, 2, 65, 0, 6),
];

fn try_sections(rt: &impl Print, wrong: &mut u64) -> io::Result<()> {
    for (n, a, m, class, k, to, due) in SECTIONS {
        let nodes = first_of_class(class, k);
        let arcs = entries(&[0, to]);
        let sections = Sections {
            nodes: piece(&nodes, 0, n),
            arcs: piece(&arcs, 0, 2 * a as usize),
            rounds: b"",
            numbers: from_0_to_1(a as usize, m as usize),
        };
        print!(rt; "N {n} A {a} M {m} nodes of class {class} {k} arcs to {to}")?;
        let mut file = File::new();
        test_files::file(sections, 0, &mut file);
        try_file(rt, &file, 4096, due, wrong)?;
    }
    Ok(())
}

// ---- a small file
// One byte in front, 5 nodes at 1, 2 arcs at 6, 2 rounds of 3 bytes at 10; N 5, A 2, M 2, s 0, t 1,
// dN 15, dA 10, dM 6, from 16 on. The new file has 49 bytes.
fn small_file() -> File
    ensures { array_vec_len result ≡ 48 }
{
    test_studies::small_file(&[0, 0, 1, 2, 1], &[0, 2, 2, 1], &[2, 4, 3, 4, 2, 3])
}

// A byte by its place, what it is set to, and what is due: the trailer, then the sections.
const BYTES: [[u8; 3]; 39] = [
    [16, 5, 0],
    [16, 6, 4],
    [16, 4, 11],
    [16, 1, 2],
    [20, 1, 0],
    [20, 3, 4],
    [21, 5, 2],
    [24, 1, 0],
    [24, 3, 9],
    [26, 2, 2],
    [28, 4, 0],
    [28, 5, 3],
    [28, 1, 3],
    [32, 4, 0],
    [32, 5, 3],
    [32, 0, 3],
    [36, 14, 4],
    [36, 16, 11],
    [36, 17, 4],
    [40, 9, 4],
    [40, 11, 4],
    [44, 5, 9],
    [44, 7, 4],
    [1, 2, 9],
    [1, 3, 5],
    [6, 4, 0],
    [6, 5, 8],
    [7, 0, 8],
    [7, 4, 0],
    [7, 5, 8],
    [10, 4, 11],
    [10, 1, 11],
    [10, 3, 11],
    [10, 200, 11],
    [12, 2, 11],
    [12, 5, 11],
    [13, 2, 11],
    [15, 2, 11],
    [15, 3, 0],
];

fn try_bytes(rt: &impl Print, wrong: &mut u64) -> io::Result<()> {
    for [at, n, due] in BYTES {
        let mut file = small_file();
        if let Some(x) = file.get_mut(usize::from(at)) {
            *x = n;
        }
        print!(rt; "byte {at} is {n}")?;
        try_file(rt, &file, 64, u32::from(due), wrong)?;
    }
    Ok(())
}

// How many of its last bytes are passed, the room, and what is due: 1 and 15, and 4 where a byte in
// front is missing.
fn try_lengths(rt: &impl Print, wrong: &mut u64) -> io::Result<()> {
    let file = small_file();
    for (n, room, due) in [
        (48, 49, 0),
        (48, 48, 15),
        (47, 49, 0),
        (46, 49, 4),
        (32, 49, 4),
        (31, 49, 1),
    ] {
        print!(rt; "length {n} room {room}")?;
        try_file(rt, piece(&file, 48 - n, n), room, due, wrong)?;
    }
    Ok(())
}

pub fn try_limits(rt: &impl Print, wrong: &mut u64) -> io::Result<()> {
    try_lengths(rt, wrong)?;
    try_sections(rt, wrong)?;
    try_bytes(rt, wrong)
}
