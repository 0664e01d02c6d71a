// Labels that spread along arcs, backward from the target, the largest level first.
#![tactic(auto)]

ghost use Rattle.std.specs.Prelude.{[], ◌+◌, ◌-◌, ◌≤◌, length, MatchOption};
ghost use Rattle.limits.specs.Limits.{max_position};
ghost use Rattle.relax.specs.Steps.{Graph, Work, NoneWaits, NextLevel, Settled, Floodable, Lengths};

use front::{Pos, Pos2};
use relax::{Net, Step, spread};

// All that a level reaches from a node, and what then waits below it: until the source has the
// level, or nothing is left.
fn drain(net: Net, at: Step, label: &mut [u8], stack: &mut [u16], wait: &mut [u16])
    requires { (f : Graph) × Floodable f net at label.old stack.old wait.old }
    ensures work { (f : Graph) → Floodable f net.entry at label.old stack.old wait.old
        → Work f (at.x.0 - 1) at.level.0 label.new [] wait.new 0 0 0 }
    ensures long { Lengths label.old stack.old wait.old label.new stack.new wait.new }
{
    stack[0] = at.node;
    let mut top: usize = 1;
    // a while: a spread stacks as many nodes as it raises
    while 0 < top {
        if Pos(label[at.source]).at_least(at.level) {
            return;
        }
        let k = top - 1;
        let next = Step {
            node: stack[k],
            top: k,
            ..at
        };
        top = spread(net, next, label, stack, wait);
    }
}

// The largest level that waits between floor and level.
fn next_level(wait: &[u16], level: Pos2, floor: Pos2) -> Option<Pos2>
    requires { (floor.0 ≤ max_position) × (level.0 ≤ max_position) × (max_position + 1 ≤ length wait.now) }
    ensures { MatchOption result (NoneWaits wait.now level.0 floor.0) (λ m. NextLevel wait.now level.0 floor.0 m.0) }
{
    for m in (floor.0 + 1..level.0).rev() {
        if wait[m as usize] != 0 {
            return Some(Pos(m));
        }
    }
    None
}

// The label of a node carried on to all nodes that it raises above the label of the source, the
// largest level first.
pub fn flood(net: Net, begin: Step, label: &mut [u8], stack: &mut [u16], wait: &mut [u16])
    requires { (f : Graph) × Floodable f net begin label.old stack.old wait.old }
    ensures settled { (f : Graph) → Floodable f net.entry begin label.old stack.old wait.old
        → Settled f (begin.x.0 - 1) label.new wait.new }
    ensures long { Lengths label.old stack.old wait.old label.new stack.new wait.new }
{
    let mut level = begin.level;
    let mut node = begin.node;
    loop {
        let at = Step {
            level,
            node,
            top: 0,
            ..begin
        };
        drain(net, at, label, stack, wait);
        let Some(next) = next_level(wait, level, Pos(label[begin.source])) else {
            return;
        };
        let p = next.0 as usize;
        level = next;
        node = wait[p] - 1;
        wait[p] = 0;
    }
}
