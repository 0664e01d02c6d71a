// Old study files from a seed, good and damaged: the sections of a new study, arcs without their
// kinds and rounds by node numbers.
ghost use Rattle.std.specs.Prelude.{◌+◌, ◌*◌, ◌≤◌, length};
ghost use Rattle.arrayvec.specs.ArrayVec.{array_vec_len};

use arrayvec::ArrayVec;
use test_files::{File, Sections, of_class};
use test_studies::{damaged_file, numbers, some};
use test_support::{pick, poke};

// The two ends of each entry.
pub fn without_kinds(arcs: &[u8]) -> ArrayVec<u8, 6666>
    requires { length arcs.now ≤ 10000 }
    ensures { 3 * array_vec_len result ≤ 2 * length arcs.now }
{
    let mut ends = ArrayVec::new();
    for arc in arcs.chunks_exact(3) {
        let _ = ends.try_extend_from_slice(&arc[..2]);
    }
    ends
}

// The node at a place of a class; no node where the class has no such place.
fn member(nodes: &[u8], class: usize, place: usize) -> usize {
    nodes
        .iter()
        .enumerate()
        .filter(|&(_, &x)| usize::from(x) == class)
        .nth(place)
        .map_or(nodes.len(), |(v, _)| v)
}

// Rounds by node numbers.
pub fn by_numbers(nodes: &[u8], rounds: &mut [u8])
    requires { length nodes.now ≤ 200 }
{
    let n1 = of_class(nodes, 1);
    let n = n1 + of_class(nodes, 2);
    for (i, x) in rounds.iter_mut().enumerate() {
        let class = match i.checked_rem(n) {
            None => 0,
            Some(place) if place < n1 => 1,
            Some(_) => 2,
        };
        *x = (member(nodes, class, usize::from(*x)) % 256) as u8;
    }
}

// How many bytes stand behind the arcs: now and then as many as new entries take besides.
fn gap(seed: u64, arcs: usize) -> usize
    ensures { 2 * result ≤ arcs + 8 }
{
    if pick(seed, 60, 3) == 0 {
        arcs / 2
    } else {
        some(seed, 61, 4)
    }
}

// Round bytes by node numbers; now and then any node among them.
fn rounds_of(seed: u64, nodes: &[u8], total: usize) -> ArrayVec<u8, 4001>
    requires { (length nodes.now ≤ 200) × (total ≤ 200000) }
{
    let mut rounds = test_studies::rounds(seed, nodes, b"", total);
    by_numbers(nodes, &mut rounds);
    if pick(seed, 62, 8) == 0 {
        poke(&mut rounds, some(seed, 63, 30), pick(seed, 64, 20));
    }
    rounds
}

// The old file of a seed, damaged or not, in place of what was there.
pub fn old_file(seed: u64, file: &mut File)
    ensures { array_vec_len file.new ≤ 8000 }
{
    let nodes = test_studies::nodes(seed);
    let mut arcs = without_kinds(&test_studies::arcs(seed, nodes.len()));
    let total = test_studies::total(seed);
    let numbers = numbers(seed, arcs.len() / 2, total);
    let _ = arcs.try_extend_from_slice(&[0; 1700][..gap(seed, arcs.len())]);
    let rounds = rounds_of(seed, &nodes, total);
    let sections = Sections {
        nodes: &nodes,
        arcs: &arcs,
        rounds: &rounds,
        numbers,
    };
    damaged_file(seed, sections, file);
}
