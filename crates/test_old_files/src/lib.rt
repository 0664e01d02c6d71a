// A plain reading of study files as they were before S-4 of document 02, arcs of two bytes and rounds
// of node numbers, and of the converter. Trailer and nodes are read as in new files.
#![tactic(auto)]

ghost use Rattle.std.specs.Prelude.{◌*◌, ◌≤◌, length, IfSome};
ghost use Rattle.arrayvec.specs.ArrayVec.{array_vec_len};

use arrayvec::ArrayVec;
use test_files::{
    File, Judged, Sections, Trailer, bad_arc, bad_rounds, behind, class_above, counts, nodes_of,
    num, of_class, piece, section, size_of,
};

pub fn arcs_of(file: &[u8]) -> &[u8]
    requires { length file.now ≤ 10000 }
    ensures { length result.now ≤ 10000 }
{
    let t = Trailer::of(file);
    section(file, t.arcs_back, 2 * t.numbers.arcs)
}

// The nodes alone have members.
pub fn rounds_of(file: &[u8]) -> &[u8]
    requires { length file.now ≤ 10000 }
    ensures { length result.now ≤ 10000 }
{
    let t = Trailer::of(file);
    section(
        file,
        t.rounds_back,
        size_of(nodes_of(file), b"", t.numbers.rounds),
    )
}

// 5, 6 and 8, in this order.
fn parts(j: Judged, n: usize, nodes: &[u8], arcs: &[u8]) -> Judged {
    let large = (64 < of_class(nodes, 1)) | (64 < of_class(nodes, 2));
    j.note(class_above(nodes), 5)
        .note(large, 6)
        .note(bad_arc(arcs, 2, n), 8)
}

// 11 over all rounds, where M is within its limit.
fn bad_orders(file: &[u8]) -> bool
    requires { length file.now ≤ 10000 }
{
    let nodes = nodes_of(file);
    let total = Trailer::of(file).numbers.rounds;
    let is_member = |class, v| nodes.get(v) == Some(&class);
    let n1 = of_class(nodes, 1);
    let n2 = of_class(nodes, 2);
    total <= 100000 && bad_rounds(rounds_of(file), total, n1, n2, is_member)
}

// The converter's numbers but 15: opening's as they were, then 11 over all rounds.
pub fn converting(file: &[u8]) -> Judged
    requires { length file.now ≤ 10000 }
{
    let t = Trailer::of(file);
    let nodes = nodes_of(file);
    let j = counts(file).note(behind(file, 2 * t.numbers.arcs), 4);
    parts(j, t.nodes, nodes, arcs_of(file))
        .note(t.rounds_back < size_of(nodes, b"", t.numbers.rounds), 9)
        .note(bad_orders(file), 11)
}

// ---- the converted file
// The place of node v in its class: how many before it are of the class.
fn place(nodes: &[u8], v: u8) -> u8
    ensures { result ≤ v }
{
    let v = usize::from(v);
    (of_class(piece(nodes, 0, v), num(nodes, v)) % 256) as u8
}

// Arcs of two bytes as entries of kind 0.
pub fn with_kinds(arcs: &[u8]) -> ArrayVec<u8, 15000>
    requires { length arcs.now ≤ 10000 }
    ensures { 2 * array_vec_len result ≤ 3 * length arcs.now }
{
    let mut entries = ArrayVec::new();
    for arc in arcs.chunks_exact(2) {
        let _ = entries.try_extend_from_slice(arc);
        let _ = entries.try_push(0);
    }
    entries
}

// The new file of an old one that is good; none where it is too long.
pub fn convert(file: &[u8]) -> Option<File>
    requires { length file.now ≤ 10000 }
    ensures { IfSome result (λ f. (32 ≤ array_vec_len f) × (array_vec_len f ≤ 30000)) }
{
    let nodes = nodes_of(file);
    let arcs = with_kinds(arcs_of(file));
    let mut rounds = ArrayVec::<u8, 10000>::try_from(rounds_of(file)).ok()?;
    for v in rounds.iter_mut() {
        *v = place(nodes, *v);
    }
    if 4000 < arcs.len() {
        return None;
    }
    let sections = Sections {
        nodes,
        arcs: &arcs,
        rounds: &rounds,
        numbers: Trailer::of(file).numbers,
    };
    let mut new = File::new();
    test_files::file(sections, 0, &mut new);
    Some(new)
}
