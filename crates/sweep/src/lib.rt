// The search of a round: class 1 positions swept from the largest down, labels for class 2.
#![tactic(auto)]

ghost use Rattle.std.specs.Prelude.{◌≡◌, [], ◌∷◌, ◌++◌, ℕ, ◌-◌, ◌≤◌, ◌<◌, length, get_or, MatchOption};
ghost use Rattle.record.specs.Record.{record_size1, record_size2, listed, front_bytes};
ghost use Rattle.buffer.specs.Steps.{record_in, Puttable};
ghost use Rattle.network.specs.Walk.{route_pairs};
ghost use Rattle.relax.specs.Steps.{Graph, graph_network};
ghost use Rattle.sweep.specs.Steps.{Sweepable, Blank, NoneIn, NextIn};

use buffer::FrontRecord;
use front::{Pair, Pos, Pos1, Pos2};
use limits::MAX_POSITION;
use relax::{Net, Step};

// Puts the pair, where its p2 is above the last.
fn collect(found: &mut FrontRecord, p: Pair, last: Pos2)
    requires { last.0 < p.p2.0 → Puttable (record_in found.old.bytes) p }
    ensures same { p.p2.0 ≤ last.0 → found.new ≡ found.old }
    ensures more { let r = record_in found.old.bytes in
        last.0 < p.p2.0 → record_in found.new.bytes ≡ front_bytes (record_size1 r) (record_size2 r) (listed r ++ p ∷ []) }
{
    if last.at_least(p.p2) {
        return;
    }
    found.put(p)
}

// The next node to enter: the largest place below x whose node has a label above `last`.
fn next_in(order: &[u16], label: &[u8], x: Pos1, last: Pos2) -> Option<Pos1>
    requires { (x.0 - 1 ≤ length order.now) × ((k : ℕ) → k < x.0 - 1 → get_or order.now k 0 < length label.now) }
    ensures { MatchOption result (NoneIn order.now label.now (x.0 - 1) last.0) (λ r. NextIn order.now label.now (x.0 - 1) last.0 r.0) }
{
    for r in (1..x.0).rev() {
        let v = order[r as usize - 1] as usize;
        if Pos(label[v]).above(last) {
            return Some(Pos(r));
        }
    }
    None
}

// The front record of a network. `begin` is the first step: x at the start, the target
// entering with its capacity. Labels and stack are the caller's, as long as its network needs.
pub fn sweep(
    net: Net,
    order: &[u16],
    n2: u8,
    begin: Step,
    label: &mut [u8],
    stack: &mut [u16],
) -> FrontRecord
    requires network { (f : Graph) × Sweepable f net order.now n2 begin }
    requires blank { Blank net.capacities.now label.old stack.old }
    ensures { (f : Graph) → Sweepable f net.entry order.now n2 begin
        → record_in result.bytes ≡ front_bytes f.n1 f.n2 (route_pairs (graph_network f)) }
{
    let mut wait = [0u16; MAX_POSITION + 1];
    let mut found = FrontRecord::empty(order.len() as u8, n2);
    let t = begin.node as usize;
    label[t] = net.capacities[net.capacities.len() / 2 + t];
    let mut x = begin.x;
    let mut node = begin.node;
    let mut last = Pos(0);
    loop {
        let at = Step {
            x,
            level: Pos(label[node as usize]),
            node,
            top: 0,
            ..begin
        };
        labels::flood(net, at, label, stack, &mut wait);
        let y = Pos(label[begin.source]);
        collect(&mut found, Pair { p1: x, p2: y }, last);
        let Some(next) = next_in(order, label, x, y) else {
            return found;
        };
        last = y;
        x = next;
        node = order[next.0 as usize - 1];
    }
}
