// Networks made from a seed: node bytes, arc bytes and rounds of a study.
#![tactic(auto)]

ghost use Rattle.arrayvec.specs.ArrayVec.{array_vec_len};
ghost use Rattle.std.specs.Prelude.{◌+◌, ◌≤◌, ◌<◌, length};

use arrayvec::ArrayVec;
use test_support::{pick, times};

// A number from a seed, below n. The numbers of `pick` for one use after another are evenly apart;
// the product in between spoils that, so that arcs do not all lead equally far.
fn draw(seed: u64, use_of: u64, n: u64) -> u64
    requires { 0 < n }
    ensures { result < n }
{
    let x = pick(seed, use_of, 33554432);
    pick(times(x, x % 1000), use_of, n) % n
}

// What a network is like. Where the ends alone fail, no other node does; the limits are those of
// the study file.
#[derive(Clone, Copy, PartialEq, Eq)]
pub enum Kind {
    Sparse,
    Dense,
    Grid,
    Ring,
    Geometric,
    EndsAlone,
    Limits,
    Small,
}

impl Kind {
    pub const ALL: [Kind; 8] = [
        Kind::Sparse,
        Kind::Dense,
        Kind::Grid,
        Kind::Ring,
        Kind::Geometric,
        Kind::EndsAlone,
        Kind::Limits,
        Kind::Small,
    ];
}

// What its arcs are like: all of kind 0; one way, both ways, or either, of all classes; either, and
// no node fails.
#[derive(Clone, Copy, PartialEq, Eq)]
pub enum Pipes {
    Kind0,
    OneWay,
    BothWays,
    EitherWay,
    Alone,
}

impl Pipes {
    pub const ALL: [Pipes; 5] = [
        Pipes::Kind0,
        Pipes::OneWay,
        Pipes::BothWays,
        Pipes::EitherWay,
        Pipes::Alone,
    ];
}

// Where arcs lead: to a neighbour in a grid or on a ring, to a near node, or to any.
#[derive(Clone, Copy)]
enum Layout {
    Grid,
    Ring,
    Near,
    Any,
}

// A network's seed and layout, N, A, s, t, the most nodes of a class, what its arcs are like, and
// how many arcs of each class fail.
#[derive(Clone, Copy)]
pub struct Shape {
    seed: u64,
    layout: Layout,
    nodes: u64,
    arcs: u64,
    source: u64,
    target: u64,
    most: u64,
    pipes: Pipes,
    failing: u64,
    ghost nodes_bound: { (2 ≤ nodes) × (nodes ≤ 160) },
    ghost arcs_bound: { (arcs ≤ 1024) × (failing ≤ 64) × (most ≤ 64) },
    ghost ends: { (source < nodes) × (target < nodes) },
}

// An arc: where it leads from and to, and its kind.
pub type Arc = [u8; 3];

// The class of each node, the arcs, s and t.
#[derive(Drop)]
pub struct Network {
    pub nodes: ArrayVec<u8, 160>,
    pub arcs: ArrayVec<Arc, 1024>,
    pub source: u8,
    pub target: u8,
}

fn layout_in(seed: u64, kind: Kind) -> Layout {
    match kind {
        Kind::Grid => Layout::Grid,
        Kind::Ring => Layout::Ring,
        Kind::Geometric => Layout::Near,
        Kind::Sparse | Kind::Dense | Kind::EndsAlone => Layout::Any,
        Kind::Limits | Kind::Small => match draw(seed, 1, 9) {
            2 => Layout::Grid,
            3 => Layout::Ring,
            4 => Layout::Near,
            _ => Layout::Any,
        },
    }
}

// Eight arcs a node in a dense network, four in a grid or a ring, two and some in another; in a
// small one 8 to 16, now and then any number below.
fn arcs_in(seed: u64, kind: Kind, nodes: u64) -> u64
    requires { nodes ≤ 160 }
    ensures { result ≤ 1024 }
{
    match kind {
        Kind::Limits => 1024,
        Kind::Small if draw(seed, 4, 4) == 0 => draw(seed, 3, 17),
        Kind::Small => 8 + draw(seed, 3, 9),
        Kind::Dense => nodes % 128 * 8,
        Kind::Grid | Kind::Ring => nodes * 4,
        Kind::Sparse | Kind::Geometric | Kind::EndsAlone => nodes * 2 + draw(seed, 3, 20),
    }
}

// At the limits arcs take half of each class.
fn most_in(kind: Kind, pipes: Pipes) -> u64
    ensures { result ≤ 64 }
{
    match (kind, pipes) {
        (Kind::EndsAlone, _) | (_, Pipes::Alone) => 0,
        (Kind::Limits, Pipes::Kind0) => 64,
        (Kind::Limits, _) => 32,
        _ => 64,
    }
}

// Some arcs of each class, and as many as there is room for at the limits and now and then.
fn failing_in(seed: u64, kind: Kind, pipes: Pipes) -> u64
    ensures { result ≤ 64 }
{
    if pipes == Pipes::Kind0 {
        return 0;
    }
    if (kind == Kind::Limits) | (draw(seed, 8, 24) == 0) {
        return 64;
    }
    draw(seed, 9, 8)
}

// Small networks with arcs both ways have some more nodes, so that routes may cross.
fn nodes_in(seed: u64, kind: Kind, pipes: Pipes) -> u64
    ensures { (2 ≤ result) × (result ≤ 160) }
{
    match (kind, pipes) {
        (Kind::Limits, _) => 160,
        (Kind::Small, Pipes::Kind0 | Pipes::OneWay) => 2 + draw(seed, 2, 6),
        (Kind::Small, _) => 3 + draw(seed, 2, 5),
        _ => 2 + draw(seed, 2, 30),
    }
}

pub fn shape_of(seed: u64, kind: Kind, pipes: Pipes) -> Shape {
    let nodes = nodes_in(seed, kind, pipes);
    let source = draw(seed, 6, nodes);
    Shape {
        seed,
        layout: layout_in(seed, kind),
        nodes,
        arcs: arcs_in(seed, kind, nodes),
        source,
        // Any other node.
        target: (source + 1 + draw(seed, 7, nodes - 1)) % nodes,
        most: most_in(kind, pipes),
        pipes,
        failing: failing_in(seed, kind, pipes),
    }
}

impl Shape {
    fn draw(&self, use_of: u64, n: u64) -> u64
        requires { 0 < n }
        ensures { result < n }
    {
        draw(self.seed, use_of, n)
    }

    // A class for each node, as long as the class has room. Source and target are of class 0, 1 or
    // 2 alike, also where no other node fails, but for networks whose arcs alone do.
    fn classes(&self) -> ArrayVec<u8, 160> {
        let mut nodes = ArrayVec::new();
        let mut n1: u64 = 0;
        let mut n2: u64 = 0;
        for v in 0..self.nodes {
            let end = (v == self.source) | (v == self.target);
            let room = if end & (self.pipes != Pipes::Alone) {
                64
            } else {
                self.most
            };
            let class = match self.draw(10 + v, if end { 6 } else { 5 }) {
                0 | 1 if n1 < room => 1,
                2 | 3 if n2 < room => 2,
                _ => 0,
            };
            n1 += u64::from(class == 1);
            n2 += u64::from(class == 2);
            let _ = nodes.try_push(class);
        }
        nodes
    }

    // How far two nodes are apart in a square of side 100.
    fn far(&self, u: u64, v: u64) -> u64
        ensures { result ≤ 200 }
    {
        let across = |v: u64| self.draw(300 + v % 256, 100);
        let down = |v: u64| self.draw(600 + v % 256, 100);
        across(u).abs_diff(across(v)) + down(u).abs_diff(down(v))
    }

    // The nearest to u of six nodes at random.
    fn near(&self, u: u64, i: u64) -> u64 {
        let mut best = self.draw(1000 + i % 2048, self.nodes);
        for k in 0..5 {
            let v = self.draw(4000 + i % 2048 * 5 + k, self.nodes);
            if (v != u) & (self.far(u, v) < self.far(u, best)) {
                best = v;
            }
        }
        best
    }

    // The start of arc i.
    fn arc_from(&self, i: u64) -> u64 {
        match self.layout {
            Layout::Grid | Layout::Ring => i / 4 % 256,
            Layout::Near | Layout::Any => self.draw(20000 + i % 2048, self.nodes),
        }
    }

    // Its end.
    fn arc_to(&self, from: u64, i: u64) -> u64
        requires { from < 256 }
    {
        match (self.layout, i % 4) {
            (Layout::Grid, 0 | 1) => from + 1,
            (Layout::Grid, _) => from + 5,
            (Layout::Ring, 0..=2) => from + 1,
            (Layout::Near, _) => self.near(from, i),
            (Layout::Ring | Layout::Any, _) => self.draw(30000 + i % 2048, self.nodes),
        }
    }

    // Arc i, turned round now and then; never from a node to itself.
    fn arc(&self, i: u64) -> Arc
        requires { i < 2000 }
    {
        let u = self.arc_from(i) % self.nodes;
        let w = self.arc_to(u, i) % self.nodes;
        let v = if u == w { (w + 1) % self.nodes } else { w };
        if self.draw(40000 + i, 2) == 0 {
            [v as u8, u as u8, 0]
        } else {
            [u as u8, v as u8, 0]
        }
    }

    // The class of arc i: each of the two for as many of all arcs as fail.
    fn arc_class(&self, i: u64) -> u8
        requires { i < self.now.arcs }
        ensures { result ≤ 2 }
    {
        let c = self.draw(60000 + i % 2048, self.arcs);
        if c < self.failing {
            1
        } else if c < 2 * self.failing {
            2
        } else {
            0
        }
    }

    // Whether arc i leads both ways.
    fn is_both_ways(&self, i: u64) -> bool {
        match self.pipes {
            Pipes::Kind0 | Pipes::OneWay => false,
            Pipes::BothWays => true,
            Pipes::EitherWay | Pipes::Alone => self.draw(56000 + i % 2048, 2) == 0,
        }
    }

    // A kind for each arc, as long as its class has room.
    fn arcs(&self, nodes: &[u8]) -> ArrayVec<Arc, 1024> {
        let mut arcs = ArrayVec::new();
        let mut n1 = of_class(nodes, 1);
        let mut n2 = of_class(nodes, 2);
        for i in 0..self.arcs {
            let class = match self.arc_class(i) {
                1 if n1 < 64 => 1,
                2 if n2 < 64 => 2,
                _ => 0,
            };
            n1 += usize::from(class == 1);
            n2 += usize::from(class == 2);
            let [from, to, _] = self.arc(i);
            let kind = class + if self.is_both_ways(i) { 3 } else { 0 };
            let _ = arcs.try_push([from, to, kind]);
        }
        arcs
    }

    pub fn network(&self) -> Network {
        let nodes = self.classes();
        let arcs = self.arcs(&nodes);
        Network {
            nodes,
            arcs,
            source: self.source as u8,
            target: self.target as u8,
        }
    }
}

// ---- what nodes and arcs there are
// How many nodes are of a class.
pub fn of_class(nodes: &[u8], class: u8) -> usize
    ensures { result ≤ length nodes.now }
{
    nodes.iter().filter(|of| **of == class).count()
}

// How many arcs are of a kind.
pub fn of_kind(arcs: &[Arc], kind: u64) -> usize
    ensures { result ≤ length arcs.now }
{
    arcs.iter().filter(|arc| u64::from(arc[2]) == kind).count()
}

// Whether two arcs join the same nodes, whichever way, and are of differing kinds.
fn beside([u, v, kind]: Arc, [x, y, other]: Arc) -> bool {
    (((u == x) & (v == y)) | ((u == y) & (v == x))) & (kind != other)
}

// Whether parallel arcs differ in kind.
pub fn parallel(arcs: &[Arc]) -> bool {
    arcs.iter().enumerate().any(|(i, arc)| arcs.iter().take(i).any(|before| beside(*arc, *before)))
}

// ---- rounds
pub type Rounds = ArrayVec<u8, 1024>;

// Each place of a class of n members once, in an order at random, after the rounds so far.
fn order(seed: u64, n: usize, rounds: &mut Rounds)
    requires { n ≤ 64 }
    ensures { array_vec_len rounds.new ≤ array_vec_len rounds.old + n }
{
    let mut order = [0u8; 64];
    for (k, place) in order.iter_mut().enumerate() {
        *place = k as u8;
    }
    let at = rounds.len() as u64;
    for i in 0..n {
        let j = draw(seed, 50000 + at + i as u64, i as u64 + 1);
        order.swap(i, j as usize);
    }
    let _ = rounds.try_extend_from_slice(&order[..n]);
}

// One more round: the order of class 1, then that of class 2.
pub fn round(seed: u64, n1: usize, n2: usize, rounds: &mut Rounds)
    requires { (n1 ≤ 64) × (n2 ≤ 64) }
    ensures { array_vec_len rounds.new ≤ array_vec_len rounds.old + 128 }
{
    order(seed, n1, rounds);
    order(seed, n2, rounds);
}
