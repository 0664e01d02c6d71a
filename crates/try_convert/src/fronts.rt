// Fronts of converted studies against removal testing on the old ones, read plainly.
ghost use Rattle.std.specs.Prelude.{◌≤◌, length};
ghost use Rattle.arrayvec.specs.ArrayVec.{array_vec_len};

use crate::Counts;
use crate::made::{by_numbers, without_kinds};
use test_counts::tick;
use test_files::{File, Numbers, Sections, Trailer, nodes_of, of_class};
use test_networks::{Kind, Pipes, Rounds};
use test_removal::{Cells, Member, Members, Network, Round, differ};
use test_support::{byte, part};

// ---- old networks
// A class size; none is above 64.
fn size(nodes: &[u8], class: usize) -> usize
    ensures { result ≤ 64 }
{
    of_class(nodes, class).min(64)
}

// Four rounds by node numbers.
fn rounds_of(seed: u64, nodes: &[u8]) -> Rounds
    requires { length nodes.now ≤ 160 }
    ensures { array_vec_len result ≤ 512 }
{
    let mut rounds = Rounds::new();
    for r in 0..4 {
        let seed = seed % 2147483648 + r * 131;
        test_networks::round(seed, size(nodes, 1), size(nodes, 2), &mut rounds);
    }
    by_numbers(nodes, &mut rounds);
    rounds
}

// The old file of a network with four rounds.
fn old_file(seed: u64, kind: Kind) -> File
    ensures { array_vec_len result ≤ 8000 }
{
    let network = test_networks::shape_of(seed, kind, Pipes::Kind0).network();
    let arcs = without_kinds(network.arcs.as_flattened());
    let rounds = rounds_of(seed, &network.nodes);
    let sections = Sections {
        nodes: &network.nodes,
        arcs: &arcs,
        rounds: &rounds,
        numbers: Numbers {
            arcs: network.arcs.len(),
            rounds: 4,
            source: usize::from(network.source),
            target: usize::from(network.target),
        },
    };
    let mut file = File::new();
    test_files::file(sections, 3, &mut file);
    file
}

// ---- removal on the old file
// An old order names its nodes by number.
fn order_of(bytes: &[u8]) -> Members {
    let mut order = Members::new();
    for &v in bytes {
        let _ = order.try_push(Member::Node(usize::from(v)));
    }
    order
}

// Where the round of these bytes holds.
fn table(file: &[u8], bytes: &[u8], n1: usize, n2: usize) -> Cells<bool>
    requires { (length file.now ≤ 10000) × (n1 ≤ 64) × (n2 ≤ 64) }
{
    let arcs = test_old_files::with_kinds(test_old_files::arcs_of(file));
    let arcs = test_removal::arcs_of(&arcs);
    let k = Trailer::of(file).numbers;
    let round = Round {
        network: Network {
            arcs: &arcs,
            source: (k.source % 256) as u8,
            target: (k.target % 256) as u8,
        },
        order1: &order_of(part(bytes, 0, n1)),
        order2: &order_of(part(bytes, n1, n2)),
    };
    round.table()
}

// Round r of both files.
fn try_round(old: &[u8], new: &[u8], r: usize, counts: &mut Counts)
    requires { (length old.now ≤ 10000) × (r ≤ 4) }
{
    let mut front = [0; 160];
    let n = search::search(new, r, &mut front).unwrap_or(0);
    let nodes = nodes_of(old);
    let n1 = size(nodes, 1);
    let n2 = size(nodes, 2);
    let bytes = part(test_old_files::rounds_of(old), r * (n1 + n2), n1 + n2);
    let wrong = differ(&front, &table(old, bytes, n1, n2));
    // A refusal, a record of no bytes or of more than any file, or another front.
    tick(&mut counts.wrong, n == 0 || 8192 < n || 0 < wrong);
    tick(&mut counts.fronts, true);
    counts.pairs = counts.pairs.saturating_add(byte(&front, 2));
}

fn try_network(seed: u64, kind: Kind, counts: &mut Counts) {
    let old = old_file(seed, kind);
    let mut new = [0; 8192];
    let n = convert::convert(&old, &mut new).unwrap_or(0);
    let new = new.get(..n).unwrap_or(&[]);
    for r in 0..4 {
        try_round(&old, new, r, counts);
    }
}

// All kinds of networks in turn, one at the limits.
fn kind_of(i: u64) -> Kind {
    let kind = Kind::ALL[(i % 8) as usize];
    if kind == Kind::Limits && i != 6 {
        Kind::Small
    } else {
        kind
    }
}

pub fn try_fronts(counts: &mut Counts) {
    for i in 0..80 {
        try_network(test_support::seed(i), kind_of(i), counts);
    }
}
