// The converter: an old study file, with arcs of two bytes and rounds of node numbers, in the new form.
// Refusals are handed on without `?`: the theorems AlwaysEnds speak of all code that a call runs, and
// std's cannot be opened.
#![tactic(auto)]

ghost use Rattle.std.specs.Prelude.{◌≡◌, [], ◌∷◌, ◌++◌, map, ◌+◌, ◌*◌, ◌/◌, ◌≤◌, length, get_or};
ghost use Rattle.limits.specs.Limits.{max_nodes, arc_size, trailer_size};
ghost use Rattle.answer.specs.Outcome.{written, done, outcome};
ghost use Rattle.slices.specs.Bytes.{words_bytes};
ghost use Rattle.slices.specs.Steps.{placed};
ghost use Rattle.convert.specs.Old.{old_arc_size, old_part_tests};
ghost use Rattle.convert.specs.Convert.{with_kinds, by_places, convert_tests, convert_answer, convert_out};
ghost use Rattle.convert.specs.Steps.{NodesBelow, PlaceTable};

use answer::Refusal;
use limits::{ARC, MAX_NODES, TRAILER};
use orders::count;
use parts::{bad_arcs, bad_orders, test_parts};
use sections::{arc_bytes, node_bytes, read_trailer, round_at};
use slices::put;
use study::test_trailer;
use writer::put_trailer;

// The bytes of an old arc: from, to.
const OLD_ARC: usize = 2;

// Numbers 5, 6 and 8; the first two are those of a study without arcs.
fn test_old_parts(nodes: &[u8], arcs: &[u8]) -> Result<(), Refusal>
    requires { length nodes.now ≤ max_nodes }
    ensures { done result ≡ outcome (old_part_tests (length nodes.now) nodes.now arcs.now) (0 ∷ []) }
{
    if let Err(r) = test_parts(nodes, &arcs[..0]) {
        return Err(r);
    }
    if bad_arcs::<OLD_ARC>(nodes.len() as u8, arcs) {
        return Err(Refusal::Arc);
    }
    Ok(())
}

// All numbers but 15. The rounds are read as one part.
fn test_old(old: &[u8]) -> Result<(), Refusal>
    ensures { done result ≡ outcome (convert_tests old.now) (0 ∷ []) }
{
    let t = read_trailer(old);
    if let Err(r) = test_trailer(old.len(), t, OLD_ARC) {
        return Err(r);
    }
    let nodes = node_bytes(old);
    let n1 = count(nodes, 1);
    let n2 = count(nodes, 2);
    if let Err(r) = test_old_parts(nodes, arc_bytes(old, OLD_ARC)) {
        return Err(r);
    }
    let dm = t.rounds * (n1 + n2);
    if t.dm < dm {
        return Err(Refusal::RoundsLength);
    }
    if bad_orders(nodes, nodes, round_at(old, dm, 0), n1, n2, t.rounds) {
        return Err(Refusal::Order);
    }
    Ok(())
}

// The place of each node in its class.
fn places(nodes: &[u8]) -> [u8; MAX_NODES]
    requires { length nodes.now ≤ max_nodes }
    ensures { PlaceTable nodes.now result }
{
    let mut place = [0u8; MAX_NODES];
    for (v, &class) in nodes.iter().enumerate() {
        place[v] = count(&nodes[..v], class) as u8;
    }
    place
}

// Writes arcs as entries of kind 0, from a place on.
fn put_arcs(arcs: &[u8], out: &mut [u8], at: usize)
    requires { at + arc_size * (length arcs.now / old_arc_size) ≤ length out.old }
    ensures { out.new ≡ placed at (with_kinds arcs.now) out.old }
{
    for i in 0..arcs.len() / OLD_ARC {
        let entry = [arcs[OLD_ARC * i], arcs[OLD_ARC * i + 1], 0];
        put(&entry, out, at + ARC * i);
    }
}

// Writes what stands in the table for each node of the rounds, from a place on.
fn put_rounds(place: &[u8], rounds: &[u8], out: &mut [u8], at: usize)
    requires nodes { NodesBelow (length place.now) rounds.now }
    requires room { at + length rounds.now ≤ length out.old }
    ensures { out.new ≡ placed at (map (λ v. get_or place.now v 0) rounds.now) out.old }
{
    for (i, &v) in rounds.iter().enumerate() {
        out[at + i] = place[v as usize];
    }
}

// Writes the sections in the new form and the trailer one after another.
fn lay_out(nodes: &[u8], arcs: &[u8], rounds: &[u8], words: [usize; 8], out: &mut [u8])
    requires nodes { (length nodes.now ≤ max_nodes) × NodesBelow (length nodes.now) rounds.now }
    requires room { length nodes.now + arc_size * (length arcs.now / old_arc_size) + length rounds.now + trailer_size ≤ length out.old }
    ensures { out.new ≡ placed 0 (nodes.now ++ with_kinds arcs.now ++ by_places nodes.now rounds.now
        ++ words_bytes words) out.old }
{
    let a = nodes.len();
    let b = a + ARC * (arcs.len() / OLD_ARC);
    put(nodes, out, 0);
    put_arcs(arcs, out, a);
    put_rounds(&places(nodes), rounds, out, b);
    put_trailer(words, out, b + rounds.len());
}

// Converts an old study file: numbers 1 to 6, 8, 9 and 11 by the old form, 15 by the new one, or the
// length of the new file and the file in `out`.
pub fn convert(old: &[u8], out: &mut [u8]) -> Result<usize, Refusal>
    ensures answer { written result ≡ convert_answer old.now (length out.old) }
    ensures slice { out.new ≡ convert_out old.now out.old }
{
    if let Err(r) = test_old(old) {
        return Err(r);
    }
    let t = read_trailer(old);
    let nodes = node_bytes(old);
    let dm = t.rounds * (count(nodes, 1) + count(nodes, 2));
    let da = ARC * t.arcs + dm;
    let dn = t.nodes + da;
    let end = dn + TRAILER;
    if out.len() < end {
        return Err(Refusal::OutputShort);
    }
    let words = [t.nodes, t.arcs, t.rounds, t.source, t.target, dn, da, dm];
    lay_out(
        nodes,
        arc_bytes(old, OLD_ARC),
        round_at(old, dm, 0),
        words,
        out,
    );
    Ok(end)
}
