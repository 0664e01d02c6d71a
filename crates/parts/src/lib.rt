// The tests of a study's parts that opening and writer share: numbers 2, 3, 5, 8, 32 and 6, and number
// 11 over all rounds.
#![tactic(auto)]

ghost use Rattle.std.specs.Prelude.{◌≡◌, not, ◌&&◌, map, ◌+◌, ◌*◌, ◌/◌, ◌≤◌, ◌<◌, length, take, drop};
ghost use Rattle.std.specs.Option.{IfSome};
ghost use Rattle.limits.specs.Limits.{max_nodes, arc_size, arc_count, max_class, max_round_size, max_rounds};
ghost use Rattle.laws.specs.Members.{all};
ghost use Rattle.answer.specs.Outcome.{outcome};
ghost use Rattle.orders.specs.Order.{count, is_order, is_order_of};
ghost use Rattle.parts.specs.Study.{entry_class, entries_from, elements, pieces};
ghost use Rattle.parts.specs.Tests.{bad_counts, bad_ends, bad_classes, bad_arc, part_tests};
ghost use Rattle.parts.specs.Steps.{sizes_of, arc_tests, counted, bad_before, Looked, field_limit, block_size, block_bytes, block_fields, GoodBlock};

use answer::Refusal;
use limits::{ARC, MAX_ARCS, MAX_CLASS, MAX_KIND, MAX_NODES, MAX_ROUNDS, MIN_NODES};
use orders::{ONES, TWOS, are_orders, count};
use slices::part;

// Document 01's n1 and n2: the elements of classes 1 and 2.
#[derive(Clone, Copy)]
pub struct Sizes {
    pub n1: usize,
    pub n2: usize,
}

// Number 2: the numbers of nodes, arcs and rounds.
pub fn bad_counts(nodes: usize, arcs: usize, rounds: usize) -> bool
    ensures { result ≡ bad_counts nodes arcs rounds }
{
    (nodes < MIN_NODES) | (MAX_NODES < nodes) | (MAX_ARCS < arcs) | (MAX_ROUNDS < rounds)
}

// Number 3: source and target are two nodes.
pub fn bad_ends(nodes: usize, source: usize, target: usize) -> bool
    ensures { result ≡ bad_ends nodes source target }
{
    (nodes <= source) | (nodes <= target) | (source == target)
}

// Number 5.
fn bad_classes(nodes: &[u8]) -> bool
    ensures { result ≡ bad_classes nodes.now }
{
    let mut bad = false;
    for &class in nodes {
        bad |= 2 < class;
    }
    bad
}

// Number 8 of one arc, for n nodes.
fn bad_arc(n: u8, from: u8, to: u8) -> bool
    ensures { result ≡ bad_arc n from to }
{
    (n <= from) | (n <= to) | (from == to)
}

// Number 8 of all, of entries of ENTRY bytes, which begin with from and to.
pub fn bad_arcs<const ENTRY: usize>(n: u8, arcs: &[u8]) -> bool
    requires { 2 ≤ ENTRY }
    ensures { result ≡ bad_before n ENTRY arcs.now (length arcs.now / ENTRY) }
{
    let mut bad = false;
    for i in 0..arcs.len() / ENTRY {
        bad |= bad_arc(n, arcs[ENTRY * i], arcs[ENTRY * i + 1]);
    }
    bad
}

// Which byte of its entry a byte is, by the first letters of from, to and kind.
const FROM: u8 = b'f';

const KIND: u8 = b'k';

// What it is below where the entry is good.
fn limit(n: u8, field: u8) -> u8
    ensures { result ≡ field_limit n field }
{
    if field == KIND { MAX_KIND + 1 } else { n }
}

// The entries that a block has: its bytes are three registers.
const BLOCK: usize = 16;

const BLOCK_BYTES: usize = ARC * BLOCK;

// How many entries of a block are of classes 1 and 2.
#[derive(Clone, Copy)]
struct Block {
    n1: u8,
    n2: u8,
}

// The block from entry i on, unless one of its entries is bad: byte by byte, so that the scan runs
// over many at a time; `fields` says which byte of its entry each is. Each is compared with the next
// one: a byte has to follow the block.
fn look(n: u8, fields: &[u8; BLOCK_BYTES], arcs: &[u8], i: usize) -> Option<Block>
    requires fields { fields.now ≡ block_fields }
    requires room { arc_size * (i + block_size) < length arcs.now }
    ensures { IfSome result (λ b. (b.n1 ≤ block_bytes) × (b.n2 ≤ block_bytes) × GoodBlock n arcs.now i b.n1 b.n2) }
{
    let at = ARC * i;
    let mut bad = false;
    let mut n1: u8 = 0;
    let mut n2: u8 = 0;
    for (j, &field) in fields.iter().enumerate() {
        let x = arcs[at + j];
        bad |= (limit(n, field) <= x) | ((field == FROM) & (x == arcs[at + j + 1]));
        n1 += ((field == KIND) & ((x == 1) | (x == 4))) as u8;
        n2 += ((field == KIND) & ((x == 2) | (x == 5))) as u8;
    }
    if bad { None } else { Some(Block { n1, n2 }) }
}

// The entries before place i are good, and so many of them are of classes 1 and 2.
#[derive(Clone, Copy)]
struct Begun {
    i: usize,
    sizes: Sizes,
}

// The blocks before the first that has a bad entry; the last entries are in none.
fn good_blocks(n: u8, arcs: &[u8]) -> Begun
    ensures { (result.i ≤ arc_count arcs.now) × Looked n arcs.now result.i result.sizes.n1 result.sizes.n2 }
{
    let fields = b"ftkftkftkftkftkftkftkftkftkftkftkftkftkftkftkftk";
    let mut n1: usize = 0;
    let mut n2: usize = 0;
    let mut i = 0;
    // A while: where it stops is handed out.
    while ARC * (i + BLOCK) < arcs.len() {
        let Some(block) = look(n, fields, arcs, i) else {
            break;
        };
        n1 += block.n1 as usize;
        n2 += block.n2 as usize;
        i += BLOCK;
    }
    Begun {
        i,
        sizes: Sizes { n1, n2 },
    }
}

// Numbers 8 and 32, or how many arcs are of classes 1 and 2: one pass over the entries that are
// left, which ends at a bad one. At a bad kind all arcs are looked at again, since 8 comes before 32.
fn count_rest(n: u8, arcs: &[u8], begun: Begun) -> Result<Sizes, Refusal>
    requires { (begun.i ≤ arc_count arcs.now) × Looked n arcs.now begun.i begun.sizes.n1 begun.sizes.n2 }
    ensures { counted result ≡ outcome (arc_tests n (entries_from arcs.now)) (sizes_of (map entry_class (entries_from arcs.now))) }
{
    // 1 for each kind of the class. Locals: a const array would be copied in every turn.
    let class1 = [0u8, 1, 0, 0, 1, 0];
    let class2 = [0u8, 0, 1, 0, 0, 1];
    let Sizes { mut n1, mut n2 } = begun.sizes;
    for i in begun.i..arcs.len() / ARC {
        let kind = arcs[ARC * i + 2];
        if bad_arc(n, arcs[ARC * i], arcs[ARC * i + 1]) {
            return Err(Refusal::Arc);
        }
        if MAX_KIND < kind {
            if bad_arcs::<ARC>(n, arcs) {
                return Err(Refusal::Arc);
            }
            return Err(Refusal::Kind);
        }
        let k = kind as usize;
        n1 += class1[k] as usize;
        n2 += class2[k] as usize;
    }
    Ok(Sizes { n1, n2 })
}

// Numbers 8 and 32, or how many arcs are of classes 1 and 2.
fn count_arcs(n: u8, arcs: &[u8]) -> Result<Sizes, Refusal>
    ensures { counted result ≡ outcome (arc_tests n (entries_from arcs.now)) (sizes_of (map entry_class (entries_from arcs.now))) }
{
    count_rest(n, arcs, good_blocks(n, arcs))
}

// Numbers 5, 8, 32 and 6, or n1 and n2, the elements of classes 1 and 2.
pub fn test_parts(nodes: &[u8], arcs: &[u8]) -> Result<Sizes, Refusal>
    requires { length nodes.now ≤ max_nodes }
    ensures { counted result ≡ outcome (part_tests (length nodes.now) nodes.now arcs.now)
        (sizes_of (elements nodes.now (entries_from arcs.now))) }
{
    if bad_classes(nodes) {
        return Err(Refusal::NodeClass);
    }
    // No `?`: it would call std, whose code `AlwaysEnds` (kinds) cannot open.
    match count_arcs(nodes.len() as u8, arcs) {
        Err(r) => Err(r),
        Ok(of_arcs) => {
            let n1 = count(nodes, 1) + of_arcs.n1;
            let n2 = count(nodes, 2) + of_arcs.n2;
            if (MAX_CLASS < n1) | (MAX_CLASS < n2) {
                return Err(Refusal::ClassSize);
            }
            Ok(Sizes { n1, n2 })
        }
    }
}

// Number 11 by class bytes, over `rounds` rounds of n1 and n2 bytes.
pub fn bad_orders(
    classes1: &[u8],
    classes2: &[u8],
    bytes: &[u8],
    n1: usize,
    n2: usize,
    rounds: usize,
) -> bool
    requires few { (length classes1.now ≤ max_nodes) × (length classes2.now ≤ max_nodes) × (n1 + n2 ≤ max_round_size) × (rounds ≤ max_rounds) }
    requires sizes { (n1 ≡ count 1 classes1.now) × (n2 ≡ count 2 classes2.now) }
    ensures { result ≡ not (all (λ x. is_order_of 1 classes1.now (take n1 x) && is_order_of 2 classes2.now (drop n1 x))
        (pieces rounds (n1 + n2) bytes.now)) }
{
    let n = n1 + n2;
    for r in 0..rounds {
        if !are_orders(classes1, classes2, n1, n2, part(bytes, r * n, n)) {
            return true;
        }
    }
    false
}

// Number 11, over `rounds` rounds of classes of n1 and n2 members.
pub fn bad_rounds(bytes: &[u8], n1: usize, n2: usize, rounds: usize) -> bool
    requires { (n1 ≤ max_class) × (n2 ≤ max_class) × (rounds ≤ max_rounds) }
    ensures { result ≡ not (all (λ x. is_order n1 (take n1 x) && is_order n2 (drop n1 x)) (pieces rounds (n1 + n2) bytes.now)) }
{
    bad_orders(&ONES[..n1], &TWOS[..n2], bytes, n1, n2, rounds)
}
