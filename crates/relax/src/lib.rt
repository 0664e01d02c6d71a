// Labels relaxed along the arcs into a node.
#![tactic(auto)]

ghost use Rattle.std.specs.Prelude.{◌≡◌, ◌-◌};
ghost use Rattle.relax.specs.Steps.{Graph, mark_at, growth, Work, Kept, Ready};

use front::{Pos, Pos1, Pos2};

// The network that is searched: the capacities of class 1 of all nodes and then those of class 2, and
// the chains of arcs.
#[derive(Clone, Copy)]
pub struct Net<'a> {
    pub capacities: &'a [u8],
    pub links: &'a [u16],
}

// Where a spread stands: the source; x, one more than the class 1 failures; the level that spreads,
// the node at work and the height of the stack.
#[derive(Clone, Copy)]
pub struct Step {
    pub source: usize,
    pub x: Pos1,
    pub level: Pos2,
    pub node: u16,
    pub top: usize,
}

// Where a raise to c leaves its mark: at c, where it waits, else in a place that nothing reads.
fn mark_at(level: Pos2, c: Pos2) -> usize
    ensures { result ≡ mark_at level.0 c.0 }
{
    if c.at_least(level) {
        return 0;
    }
    c.0 as usize
}

// By how much the stack grows with it: by 1 where it has the level and its node is in.
fn growth(level: Pos2, c: Pos2, x: Pos1, entry: Pos1) -> usize
    ensures { result ≡ growth level.0 c.0 x.0 entry.0 }
{
    if c.at_least(level) & entry.at_least(x) {
        return 1;
    }
    0
}

// The labels of the nodes with an arc into the node at work, raised to what its level gives them.
// Labels, stack and marks are three slices: of a struct of them each contract would have to say
// three times more that it still holds the same reference.
pub fn spread(net: Net, at: Step, label: &mut [u8], stack: &mut [u16], wait: &mut [u16]) -> usize
    requires { (f : Graph) × Ready f net at label.old stack.old wait.old }
    ensures work { (f : Graph) → Ready f net.entry at label.old stack.old wait.old
        → Work f (at.x.0 - 1) at.level.0 label.new stack.new wait.new result at.node 0 }
    ensures kept { Kept at.level.0 label.old stack.old wait.old at.top label.new
        stack.new wait.new result }
{
    let Net { capacities, links } = net;
    let size = capacities.len() / 2;
    let mut top = at.top;
    let mut i = links[at.node as usize] as usize;
    // a while: each arc names the next of its chain
    while 0 < i {
        let p = size + 2 * (i - 1);
        i = links[p + 1] as usize;
        let from = links[p];
        let u = from as usize;
        let c = at.level.min(Pos(capacities[size + u]));
        if Pos(label[u]).at_least(c) {
            continue;
        }
        // decided without a jump: what is stored past the stack or at mark 0 is never read
        label[u] = c.0;
        stack[top] = from;
        wait[mark_at(at.level, c)] = from + 1;
        top += growth(at.level, c, at.x, Pos(capacities[u]));
    }
    top
}
