// The arcs of entries as chains into each node, a node in the middle of each arc that may fail. One
// slice keeps all: `size` heads, then two places for each arc, where it begins and what follows it.
#![tactic(auto)]

ghost use Rattle.std.specs.Prelude.{◌≡◌, List, ◌++◌, ℕ, ◌+◌, ◌*◌, ◌≤◌, ◌<◌, length, get_or};
ghost use Rattle.limits.specs.Limits.{max_arcs, arc_size, arc_count};
ghost use Rattle.laws.specs.Members.{◌∈◌};
ghost use Rattle.parts.specs.Study.{Entry, Arc, entries_from};
ghost use Rattle.chains.specs.Steps.{max_links, arc_added, way_arcs, way_count, split_entries, Linked};

use limits::{ARC, MAX_ARCS, MAX_CLASS, MAX_NODES};

// The most elements: nodes, and the middles of arcs.
pub const MAX_ELEMENTS: usize = MAX_NODES + MAX_ARCS;

// The most places of a slice of chains: two for each arc, two arcs for each entry and two more for
// each that may fail.
pub const MAX_LINKS: usize = MAX_ELEMENTS + 4 * (MAX_ARCS + 2 * MAX_CLASS);

// One arc more, from u to v, at the head of v's chain; an arc is kept as its number plus one.
fn add(u: usize, v: usize, d: usize, size: usize, links: &mut [u16])
    requires { (u < size) × (v < size) × (size + 2 * (d + 1) ≤ length links.old) × (length links.old ≤ max_links) }
    ensures { links.new ≡ arc_added size links.old u v d }
{
    let head = links[v];
    let at = size + 2 * d;
    links[at] = u as u16;
    links[at + 1] = head;
    links[v] = (d + 1) as u16;
}

// One way from u to v: an arc, or its two halves with the node m between them.
fn way(u: usize, v: usize, m: usize, class: u8, d: usize, size: usize, links: &mut [u16]) -> usize
    requires nodes { (u < size) × (v < size) × (m < size) }
    requires room { (size + 2 * (d + way_count class) ≤ length links.old) × (length links.old ≤ max_links) }
    ensures count { result ≡ d + way_count class }
    ensures long { length links.new ≡ length links.old }
    ensures linked { (ds : List Arc) (i : ℕ) → length ds ≡ d → Linked size ds links.old
        → Linked size (ds ++ way_arcs class m u v i) links.new }
{
    if class == 0 {
        add(u, v, d, size, links);
        return d + 1;
    }
    add(u, m, d, size, links);
    add(m, v, d + 1, size, links);
    d + 2
}

// All arcs of the entries, one after another.
pub fn link(arcs: &[u8], nodes: usize, size: usize, links: &mut [u16])
    requires few { (length arcs.now ≤ arc_size * max_arcs) × (nodes + arc_count arcs.now ≤ size) }
    requires room { (size + 2 * length (split_entries nodes 0 (entries_from arcs.now)) ≤ length links.old) × (length links.old ≤ max_links) }
    requires ends { (x : Entry) → x ∈ entries_from arcs.now → (x.from < nodes) × (x.to < nodes) }
    requires clear { (v : ℕ) → v < size → get_or links.old v 0 ≡ 0 }
    ensures { Linked size (split_entries nodes 0 (entries_from arcs.now)) links.new }
{
    let n = arcs.len() / ARC;
    let mut d: usize = 0;
    for i in 0..n {
        let u = arcs[ARC * i] as usize;
        let v = arcs[ARC * i + 1] as usize;
        let kind = arcs[ARC * i + 2];
        let m = nodes + i;
        if kind == 0 {
            d = way(u, v, m, 0, d, size, links);
            continue;
        }
        let class = kind % 3;
        d = way(u, v, m, class, d, size, links);
        if kind < 3 {
            continue;
        }
        d = way(v, u, m, class, d, size, links);
    }
}
