// The members of both classes, nodes by number and then arcs by place, and a round's orders by
// element.
#![tactic(auto)]

ghost use Rattle.std.specs.Prelude.{◌≡◌, ℕ, ◌+◌, ◌*◌, ◌≤◌, ◌<◌, length, get_or, take};
ghost use Rattle.limits.specs.Limits.{max_nodes, max_arcs, arc_size};
ghost use Rattle.laws.specs.Members.{◌∈◌};
ghost use Rattle.orders.specs.Order.{count};
ghost use Rattle.split.specs.Steps.{element_order};
ghost use Rattle.members.specs.Steps.{elements_in, table_size, Tabled, Lists, ByPlace, Roomy};

use limits::{ARC, MAX_CLASS};
use orders::same;
use parts::Sizes;

// A place for each member, and one more, which is written and not counted.
const TABLE: usize = MAX_CLASS + 1;

// The nodes: each is written into both tables, and counted in that of its class.
fn put_nodes(nodes: &[u8], table1: &mut [u16], table2: &mut [u16]) -> Sizes
    requires few { (length nodes.now ≤ max_nodes) × (length table1.old ≤ table_size) × (length table2.old ≤ table_size) }
    requires room { (count 1 nodes.now < length table1.old) × (count 2 nodes.now < length table2.old) }
    ensures long1 { length table1.new ≡ length table1.old }
    ensures long2 { length table2.new ≡ length table2.old }
    ensures one { Tabled 1 nodes.now table1.new result.n1 (length nodes.now) }
    ensures two { Tabled 2 nodes.now table2.new result.n2 (length nodes.now) }
{
    let mut n1: usize = 0;
    let mut n2: usize = 0;
    for (v, &class) in nodes.iter().enumerate() {
        table1[n1] = v as u16;
        table2[n2] = v as u16;
        n1 += same(class, 1) as usize;
        n2 += same(class, 2) as usize;
    }
    Sizes { n1, n2 }
}

// And the arcs, until all members are in: none where no arc may fail.
fn put_arcs(
    nodes: &[u8],
    arcs: &[u8],
    begin: Sizes,
    total: usize,
    table1: &mut [u16],
    table2: &mut [u16],
)
    requires few { (length nodes.now ≤ max_nodes) × (length arcs.now ≤ arc_size * max_arcs) }
    requires total { total ≡ count 1 (elements_in nodes.now arcs.now) + count 2 (elements_in nodes.now arcs.now) }
    requires one { Tabled 1 (elements_in nodes.now arcs.now) table1.old begin.n1 (length nodes.now) }
    requires two { Tabled 2 (elements_in nodes.now arcs.now) table2.old begin.n2 (length nodes.now) }
    ensures long1 { length table1.new ≡ length table1.old }
    ensures long2 { length table2.new ≡ length table2.old }
    ensures one { Lists 1 (elements_in nodes.now arcs.now) table1.new }
    ensures two { Lists 2 (elements_in nodes.now arcs.now) table2.new }
{
    let mut n1 = begin.n1;
    let mut n2 = begin.n2;
    let mut i: usize = 0;
    // a while: the count of members ends it, and where the last one stands is not known
    while n1 + n2 < total {
        let class = arcs[ARC * i + 2] % 3;
        let element = (nodes.len() + i) as u16;
        table1[n1] = element;
        table2[n2] = element;
        n1 += same(class, 1) as usize;
        n2 += same(class, 2) as usize;
        i += 1;
    }
}

// The members that an order names by place.
fn look_up(table: &[u16], order: &[u8], out: &mut [u16])
    requires few { (length table.now ≤ table_size) × Roomy order.now out.old }
    requires small { (m : ℕ) → m ∈ order.now → m < length table.now }
    ensures long { length out.new ≡ length out.old }
    ensures named { (k : ℕ) → k < length order.now
        → get_or out.new k 0 ≡ get_or table.now (get_or order.now k 0) 0 }
{
    for (k, &place) in order.iter().enumerate() {
        out[k] = table[place as usize];
    }
}

// Both orders of a round by element, each at the beginning of its slice.
pub fn element_orders(
    nodes: &[u8],
    arcs: &[u8],
    order1: &[u8],
    order2: &[u8],
    out1: &mut [u16],
    out2: &mut [u16],
)
    requires few { (length nodes.now ≤ max_nodes) × (length arcs.now ≤ arc_size * max_arcs) }
    requires orders { ByPlace 1 (elements_in nodes.now arcs.now) order1.now × ByPlace 2 (elements_in nodes.now arcs.now) order2.now }
    requires room { Roomy order1.now out1.old × Roomy order2.now out2.old }
    ensures long1 { length out1.new ≡ length out1.old }
    ensures long2 { length out2.new ≡ length out2.old }
    ensures one { take (length order1.now) out1.new
        ≡ element_order 1 (elements_in nodes.now arcs.now) order1.now }
    ensures two { take (length order2.now) out2.new
        ≡ element_order 2 (elements_in nodes.now arcs.now) order2.now }
{
    let mut table1 = [0u16; TABLE];
    let mut table2 = [0u16; TABLE];
    let begin = put_nodes(nodes, &mut table1, &mut table2);
    let total = order1.len() + order2.len();
    put_arcs(nodes, arcs, begin, total, &mut table1, &mut table2);
    look_up(&table1, order1, out1);
    look_up(&table2, order2, out2);
}
