// Generated studies: good ones of all sizes, and damaged ones.
#![tactic(auto)]

ghost use Rattle.std.specs.Prelude.{◌≡◌, ◌+◌, ◌≤◌, ◌<◌, length};
ghost use Rattle.arrayvec.specs.ArrayVec.{array_vec_len};

use arrayvec::ArrayVec;
use test_files::{File, Numbers, Sections, file, members, size_of};
use test_support::{byte, pick, poke};

// A number from a seed, at most n.
pub fn some(seed: u64, use_of: u64, n: usize) -> usize
    requires { n ≤ 1000000 }
    ensures { result ≤ n }
{
    pick(seed, use_of, n as u64) as usize
}

// Once in n cases.
fn rarely(seed: u64, use_of: u64, n: u64) -> bool {
    pick(seed, use_of, n) == 1
}

// A count: one of two limits or the numbers next to them now and then, small as a rule.
fn count_of(seed: u64, use_of: u64, low: usize, high: usize, usual: usize) -> usize
    requires { (use_of < 1000) × (low ≤ 100) × (high ≤ 100000) × (usual ≤ 100) }
    ensures { result ≤ 100001 }
{
    match pick(seed, use_of, 24) {
        0 => low,
        1 => high,
        2 => high + 1,
        3 if 0 < low => low - 1,
        _ => low + some(seed, use_of + 1, usual),
    }
}

// How a study's classes are filled.
#[derive(Clone, Copy, PartialEq, Eq)]
enum Filling {
    // 64 or 65 members each, by nodes alone
    Nodes,
    // by arcs alone
    Arcs,
    // by both
    Both,
    // no node fails
    NoNodes,
    // no arc fails
    NoArcs,
    Any,
}

impl Filling {
    fn of(seed: u64) -> Filling {
        match pick(seed, 5, 12) {
            0 => Filling::Nodes,
            1 => Filling::Arcs,
            2 => Filling::Both,
            3 => Filling::NoNodes,
            4 => Filling::NoArcs,
            _ => Filling::Any,
        }
    }

    fn is_full(self) -> bool {
        matches!(self, Filling::Nodes | Filling::Arcs | Filling::Both)
    }
}

// How many members a class has in a full study, how many of them are nodes, how many arcs.
fn whole_of(seed: u64, class: u8) -> usize
    requires { class ≤ 2 }
    ensures { result ≤ 65 }
{
    64 + some(seed, 6 + u64::from(class), 3) / 2 % 2
}

fn nodes_in(seed: u64, class: u8) -> usize
    requires { class ≤ 2 }
    ensures { result ≤ 65 }
{
    let whole = whole_of(seed, class);
    match Filling::of(seed) {
        Filling::Nodes => whole,
        Filling::Arcs => 0,
        _ => some(seed, 9, whole),
    }
}

fn arcs_in(seed: u64, class: u8) -> usize
    requires { class ≤ 2 }
    ensures { result ≤ 65 }
{
    whole_of(seed, class).saturating_sub(nodes_in(seed, class))
}

// The class of the i-th of n1 + n2 and some.
fn class_at(i: usize, n1: usize, n2: usize) -> u8
    requires { (n1 ≤ 65) × (n2 ≤ 65) }
    ensures { result ≤ 2 }
{
    if i < n1 {
        1
    } else if i < n1 + n2 {
        2
    } else {
        0
    }
}

fn class(seed: u64, v: usize) -> u8
    requires { v < 1000 }
{
    let filling = Filling::of(seed);
    if rarely(seed, 300 + v as u64, 900) {
        3
    } else if filling.is_full() {
        class_at(v, nodes_in(seed, 1), nodes_in(seed, 2))
    } else if filling == Filling::NoNodes {
        0
    } else {
        pick(seed, 600 + v as u64, 3) as u8
    }
}

// A full study has nodes, or arcs, enough.
fn node_count(seed: u64) -> usize
    ensures { result ≤ 200 }
{
    let n = count_of(seed, 1, 2, 160, 20) % 200;
    let filling = Filling::of(seed);
    if filling.is_full() && filling != Filling::Arcs && n < 130 {
        160
    } else {
        n
    }
}

fn arc_count(seed: u64) -> usize
    ensures { result ≤ 1040 }
{
    let a = count_of(seed, 10, 0, 1024, 40) % 1040;
    let filling = Filling::of(seed);
    if filling.is_full() && filling != Filling::Nodes && a < 130 {
        130 + some(seed, 16, 3)
    } else {
        a
    }
}

// Node bytes.
pub fn nodes(seed: u64) -> ArrayVec<u8, 200> {
    let mut nodes = ArrayVec::new();
    for v in 0..node_count(seed) {
        let _ = nodes.try_push(class(seed, v));
    }
    nodes
}

// A fault in one of so many arcs: few in most studies, many in some.
fn odds(seed: u64) -> u64 {
    if rarely(seed, 13, 10) { 60 } else { 6000 }
}

// The end of arc i: another node than its start as a rule.
fn to_of(seed: u64, n: usize, from: usize, i: usize) -> usize
    requires { (n ≤ 200) × (from ≤ 200) × (i ≤ 2000) }
    ensures { result ≤ 200 }
{
    if rarely(seed, 5000 + i as u64, odds(seed)) {
        return from;
    }
    if rarely(seed, 7000 + i as u64, odds(seed)) {
        return n;
    }
    let to = some(seed, 2001 + 2 * i as u64, n);
    if from != to {
        to
    } else if from == 0 {
        1
    } else {
        0
    }
}

// The class of arc i of a study that is not full: any in a small one, none fails in a large one.
fn arc_class(seed: u64, a: usize, i: usize) -> u64
    requires { i ≤ 2000 }
    ensures { result ≤ 3 }
{
    let filling = Filling::of(seed);
    if filling.is_full() {
        u64::from(class_at(i, arcs_in(seed, 1), arcs_in(seed, 2)))
    } else if filling == Filling::NoArcs || 100 < a {
        0
    } else {
        pick(seed, 10000 + i as u64, 3)
    }
}

// Its kind: 6 or some number above now and then.
fn kind_of(seed: u64, a: usize, i: usize) -> u8
    requires { i ≤ 2000 }
{
    let kind = if !rarely(seed, 12000 + i as u64, odds(seed)) {
        arc_class(seed, a, i) % 3 + 3 * (pick(seed, 16000 + i as u64, 2) % 2)
    } else if pick(seed, 14, 2) == 0 {
        6
    } else {
        6 + pick(seed, 14000 + i as u64, 250)
    };
    (kind % 256) as u8
}

// Arc bytes: no multiple of three now and then.
pub fn arcs(seed: u64, n: usize) -> ArrayVec<u8, 3200>
    requires { n ≤ 200 }
{
    let a = arc_count(seed);
    let mut arcs = ArrayVec::new();
    for i in 0..a {
        let from = some(seed, 2000 + 2 * i as u64, n);
        let to = to_of(seed, n, from, i);
        let _ = arcs.try_extend_from_slice(&[from as u8, to as u8, kind_of(seed, a, i)]);
    }
    if rarely(seed, 12, 25) {
        let _ = arcs.try_extend_from_slice(&[0; 3][..1 + some(seed, 15, 2)]);
    }
    arcs
}

// How many rounds.
pub fn total(seed: u64) -> usize
    ensures { result ≤ 100001 }
{
    count_of(seed, 20, 0, 100000, 6)
}

// The places of a class in some order.
fn order(seed: u64, class: u64, out: &mut [u8])
    requires { (class ≤ 2) × (length out.old ≤ 20000) }
{
    for k in 0..out.len() {
        let j = some(seed, 9000 + 300 * class + k as u64, k + 1);
        poke(out, k, byte(out, j));
        poke(out, j, k as u64);
    }
}

// The orders of all rounds, one behind the other.
fn orders(seed: u64, n1: usize, n2: usize, total: usize, out: &mut [u8])
    requires { (n1 ≤ 10000) × (n2 ≤ 10000) × (0 < n1 + n2) }
{
    for (r, round) in out.chunks_exact_mut(n1 + n2).take(total).enumerate() {
        let seed = seed % 1000000 + r as u64;
        let (first, second) = round.split_at_mut(n1);
        order(seed, 1, first);
        order(seed, 2, second);
    }
}

// Round bytes: good orders as a rule, at times a wrong byte or a wrong length; none where there
// would be many.
pub fn rounds(seed: u64, nodes: &[u8], arcs: &[u8], total: usize) -> ArrayVec<u8, 4001>
    requires { (length nodes.now ≤ 200) × (length arcs.now ≤ 3200) × (total ≤ 200000) }
{
    let bytes = size_of(nodes, arcs, total);
    if 4000 < bytes {
        return ArrayVec::new();
    }
    let n1 = members(nodes, arcs, 1);
    let n2 = members(nodes, arcs, 2);
    let mut rounds = ArrayVec::from([0; 4001]);
    if 0 < n1 + n2 {
        orders(seed, n1, n2, total, &mut rounds);
    }
    if rarely(seed, 30, 4) {
        poke(&mut rounds, some(seed, 31, 30), pick(seed, 32, 20));
    }
    rounds.truncate(if rarely(seed, 33, 20) {
        bytes + 1
    } else if rarely(seed, 34, 10) {
        bytes.saturating_sub(1)
    } else {
        bytes
    });
    rounds
}

// Source or target: 0 and 1 as a rule.
fn end(seed: u64, usual: usize) -> usize
    requires { usual ≤ 1 }
    ensures { result ≤ 1000000 }
{
    if rarely(seed, 40 + usual as u64, 20) {
        some(seed, 42 + usual as u64, 200)
    } else {
        usual
    }
}

// The numbers of a study of so many arcs and rounds.
pub fn numbers(seed: u64, arcs: usize, rounds: usize) -> Numbers
    ensures { (result.arcs ≡ arcs) × (result.rounds ≡ rounds) × (result.source ≤ 1000000) × (result.target ≤ 1000000) }
{
    Numbers {
        arcs,
        rounds,
        source: end(seed, 0),
        target: end(seed, 1),
    }
}

// A study from a seed.
#[derive(Drop)]
pub struct Study {
    pub nodes: ArrayVec<u8, 200>,
    pub arcs: ArrayVec<u8, 3200>,
    pub rounds: ArrayVec<u8, 4001>,
    pub numbers: Numbers,
    ghost small: { numbers.rounds ≤ 200000 },
}

impl Study {
    pub fn of(seed: u64) -> Study {
        let nodes = nodes(seed);
        let arcs = arcs(seed, nodes.len());
        let total = total(seed);
        Study {
            rounds: rounds(seed, &nodes, &arcs, total),
            numbers: numbers(seed, arcs.len() / 3, total),
            nodes,
            arcs,
        }
    }

    pub fn sections(&self) -> Sections<'_>
        ensures { (length result.nodes.now ≤ 200) × (length result.arcs.now ≤ 3200) × (length result.rounds.now ≤ 4001)
            × (result.numbers.rounds ≤ 200000) }
    {
        Sections {
            nodes: &self.nodes,
            arcs: &self.arcs,
            rounds: &self.rounds,
            numbers: self.numbers,
        }
    }
}

// Some damage to a file: at times a byte of its trailer raised or lowered by one, or any byte
// changed.
fn hurt(seed: u64, use_of: u64, file: &mut [u8])
    requires { use_of < 1000 }
{
    let at = file.len().saturating_sub(some(seed, use_of + 1, 33));
    let old = byte(file, at);
    match pick(seed, use_of, 12) {
        0 => poke(file, at, old + 1),
        1 => poke(file, at, old + 255),
        2 => poke(
            file,
            some(seed, use_of + 2, 400),
            pick(seed, use_of + 3, 256),
        ),
        _ => {}
    }
}

// Up to three damages, and at times another length.
fn damage(seed: u64, file: &mut File)
    ensures { array_vec_len file.new ≤ array_vec_len file.old }
{
    for i in 0..3 {
        hurt(seed, 100 + 10 * i, file);
    }
    match pick(seed, 130, 40) {
        0 => file.truncate(31),
        1 => file.truncate(32),
        2 => file.truncate(file.len().saturating_sub(1)),
        _ => {}
    }
}

// A file of these sections, damaged or not, in place of what was there.
pub fn damaged_file(seed: u64, s: Sections<'_>, out: &mut File)
    requires { length s.rounds.now ≤ 10000 }
    ensures { array_vec_len out.new ≤ 36 + length s.entry.nodes.now + length s.entry.arcs.now + length s.entry.rounds.now }
{
    file(s, some(seed, 51, 4), out);
    damage(seed, out);
}

// ---- studies at the limits
// The numbers of a study from node 0 to node 1.
pub fn from_0_to_1(arcs: usize, rounds: usize) -> Numbers
    ensures { (result.arcs ≡ arcs) × (result.rounds ≡ rounds) }
{
    Numbers {
        arcs,
        rounds,
        source: 0,
        target: 1,
    }
}

// 161 nodes, the first k of them of a class.
pub fn first_of_class(class: usize, k: usize) -> [u8; 161]
    ensures { length result ≡ 161 }
{
    let mut nodes = [0; 161];
    nodes[..k.min(161)].fill((class % 256) as u8);
    nodes
}

// The same entry over and over: 1025 of three bytes, or more of two.
pub fn entries(entry: &[u8]) -> [u8; 3075]
    requires { 0 < length entry.now }
    ensures { length result ≡ 3075 }
{
    let mut all = [0; 3075];
    for place in all.chunks_exact_mut(entry.len()) {
        place.copy_from_slice(entry);
    }
    all
}

// A file with a byte in front, two arcs and two rounds.
pub fn small_file(nodes: &[u8], arcs: &[u8], rounds: &[u8]) -> File
    requires { (length nodes.now ≤ 100) × (length arcs.now ≤ 100) × (length rounds.now ≤ 100) }
    ensures { array_vec_len result ≡ length nodes.now + length arcs.now + length rounds.now + 33 }
{
    let numbers = from_0_to_1(2, 2);
    let sections = Sections {
        nodes,
        arcs,
        rounds,
        numbers,
    };
    let mut out = File::new();
    file(sections, 1, &mut out);
    out
}
