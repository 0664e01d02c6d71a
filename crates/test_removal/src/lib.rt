// Removal testing, all routes one by one, and how many rounds hold: no code is shared with the
// library.
#![tactic(auto)]

mod routes;

ghost use Rattle.std.specs.Prelude.{◌≤◌};

use arrayvec::ArrayVec;
pub use routes::{Routes, Ways};
use test_support::record_holds;

// An arc: its ends, its class, and whether it leads both ways.
#[derive(Clone, Copy, Default)]
pub struct Arc {
    pub from: u8,
    pub to: u8,
    pub class: u8,
    pub both_ways: bool,
}

impl From<[u8; 3]> for Arc {
    fn from([from, to, kind]: [u8; 3]) -> Arc {
        Arc {
            from,
            to,
            class: kind % 3,
            both_ways: 2 < kind,
        }
    }
}

pub type Arcs = ArrayVec<Arc, 1024>;

// The arcs of a study file's bytes.
pub fn arcs_of(bytes: &[u8]) -> Arcs {
    let mut arcs = ArrayVec::new();
    let _ = arcs.extend(bytes.as_chunks().0.iter().copied().map(Arc::from));
    arcs
}

// ---- members of a class
// What may fail: a node by number, or an arc by place.
#[derive(Clone, Copy, PartialEq, Eq)]
pub enum Member {
    Node(usize),
    Arc(usize),
}

impl Default for Member {
    fn default() -> Member {
        Member::Node(0)
    }
}

// Members, as many as a class may have.
pub type Members = ArrayVec<Member, 64>;

// The members of a class: its nodes by number, then its arcs by place.
pub fn members(nodes: &[u8], arcs: &[Arc], class: u8) -> Members {
    let mut members = ArrayVec::new();
    for (v, of) in nodes.iter().enumerate() {
        if *of == class {
            let _ = members.try_push(Member::Node(v));
        }
    }
    for (k, arc) in arcs.iter().enumerate() {
        if arc.class == class {
            let _ = members.try_push(Member::Arc(k));
        }
    }
    members
}

// Members, first failure first. The order names them by place in the class.
pub fn failing(members: &[Member], order: &[u8]) -> Members {
    let mut failing = ArrayVec::new();
    for place in order {
        if let Some(member) = members.get(*place as usize) {
            let _ = failing.try_push(*member);
        }
    }
    failing
}

// ---- removal
// Which nodes and arcs work.
#[derive(Clone, Copy)]
struct Works {
    nodes: [bool; 256],
    arcs: [bool; 1024],
}

impl Works {
    const ALL: Works = Works {
        nodes: [true; 256],
        arcs: [true; 1024],
    };

    // The first n members of an order no longer work.
    fn remove(&mut self, order: &[Member], n: usize) {
        for member in order.iter().take(n) {
            match *member {
                Member::Node(v) => {
                    if let Some(works) = self.nodes.get_mut(v) {
                        *works = false;
                    }
                }
                Member::Arc(k) => {
                    if let Some(works) = self.arcs.get_mut(k) {
                        *works = false;
                    }
                }
            }
        }
    }
}

// Document 01's arcs, s and t.
#[derive(Clone, Copy)]
pub struct Network<'a> {
    pub arcs: &'a [Arc],
    pub source: u8,
    pub target: u8,
}

impl Network<'_> {
    // One pass over the arcs that work: whether a node is newly reached.
    fn pass(&self, works: &Works, reached: &mut [bool; 256]) -> bool {
        let mut more = false;
        for (arc, open) in self.arcs.iter().zip(&works.arcs) {
            let from = arc.from as usize;
            let to = arc.to as usize;
            let there = reached[from] & works.nodes[to] & !reached[to];
            let back = arc.both_ways & reached[to] & works.nodes[from] & !reached[from];
            if *open & (there | back) {
                reached[from] = true;
                reached[to] = true;
                more = true;
            }
        }
        more
    }

    // Whether working nodes and arcs lead from the source to the target.
    fn joins(&self, works: &Works) -> bool {
        let mut reached = [false; 256];
        reached[self.source as usize] = works.nodes[self.source as usize];
        for _ in 0..256 {
            let more = self.pass(works, &mut reached);
            if reached[self.target as usize] {
                return true;
            }
            if !more {
                return false;
            }
        }
        false
    }
}

// A round of a network: the members of both classes, first failure first.
#[derive(Clone, Copy)]
pub struct Round<'a> {
    pub network: Network<'a>,
    pub order1: &'a Members,
    pub order2: &'a Members,
}

// A cell for each number of members of class 1, and of class 2.
pub type Cells<T> = [[T; 65]; 65];

impl Round<'_> {
    // Whether the round holds without its first a members of class 1 and b of class 2.
    fn holds(&self, a: usize, b: usize) -> bool {
        let mut works = Works::ALL;
        works.remove(self.order1, a);
        works.remove(self.order2, b);
        self.network.joins(&works)
    }

    // Where the round holds. It holds nowhere past its class sizes.
    pub fn table(&self) -> Cells<bool> {
        let mut cells = [[false; 65]; 65];
        for (a, row) in cells.iter_mut().enumerate().take(self.order1.len() + 1) {
            for (b, cell) in row.iter_mut().enumerate().take(self.order2.len() + 1) {
                *cell = self.holds(a, b);
            }
        }
        cells
    }
}

// The cells in which record and table differ.
pub fn differ(record: &[u8], cells: &Cells<bool>) -> u64
    ensures { result ≤ 4225 }
{
    let mut wrong: u64 = 0;
    for (a, row) in cells.iter().enumerate() {
        for (b, cell) in row.iter().enumerate() {
            if *cell != record_holds(record, a as u64, b as u64) {
                wrong = wrong.saturating_add(1);
            }
        }
    }
    wrong
}

// ---- rounds found
// A front record.
pub type Record = ArrayVec<u8, 160>;

// A record that the library found, and the cells in which removal testing finds that it holds.
#[derive(Default, Drop)]
pub struct Found {
    pub record: Record,
    pub cells: Cells<bool>,
}

// For l1 and l2 working members in how many of the rounds the network holds.
pub fn held(rounds: &[Found], n1: usize, n2: usize) -> Cells<u8>
    requires { (n1 ≤ 64) × (n2 ≤ 64) }
{
    let mut held = [[0; 65]; 65];
    for l1 in 0..=n1 {
        for l2 in 0..=n2 {
            let holds = rounds
                .iter()
                .map(|round| u8::from(round.cells[n1 - l1][n2 - l2]));
            held[l1][l2] = holds.fold(0, u8::saturating_add);
        }
    }
    held
}
