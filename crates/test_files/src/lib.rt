// A plain reading of the study file, document 01 and S-4 of document 02: all tests are made, and the
// first that applies is the answer.
#![tactic(auto)]

ghost use Rattle.std.specs.Prelude.{◌≡◌, ◌+◌, ◌*◌, ◌≤◌, ◌<◌, length};
ghost use Rattle.arrayvec.specs.ArrayVec.{array_vec_len};

use arrayvec::ArrayVec;
use test_support::byte;

// The bytes of a study file, at most so many.
pub type File = ArrayVec<u8, 30132>;

// The numbers of the first two tests that applied.
#[derive(Clone, Copy, Default)]
pub struct Judged {
    pub first: Option<u32>,
    pub second: Option<u32>,
}

impl Judged {
    // One more test, and its number.
    pub fn note(self, test: bool, number: u32) -> Judged {
        if !test {
            return self;
        }
        if self.first.is_none() {
            return Judged {
                first: Some(number),
                second: None,
            };
        }
        Judged {
            first: self.first,
            second: self.second.or(Some(number)),
        }
    }
}

// Document 01's A, M, s and t.
#[derive(Clone, Copy)]
pub struct Numbers {
    pub arcs: usize,
    pub rounds: usize,
    pub source: usize,
    pub target: usize,
}

// The sections of a study, and the numbers that are given for it.
#[derive(Clone, Copy)]
pub struct Sections<'a> {
    pub nodes: &'a [u8],
    pub arcs: &'a [u8],
    pub rounds: &'a [u8],
    pub numbers: Numbers,
    ghost small: { (length nodes.now ≤ 10000) × (length arcs.now ≤ 10000) },
}

// A trailer: N, A, M, s, t, and how far before the trailer each section begins.
#[derive(Clone, Copy)]
pub struct Trailer {
    pub nodes: usize,
    pub numbers: Numbers,
    pub nodes_back: usize,
    pub arcs_back: usize,
    pub rounds_back: usize,
    ghost words: { (nodes < 4294967296) × (numbers.arcs < 4294967296) × (numbers.rounds < 4294967296) },
    ghost ends: { (numbers.source < 4294967296) × (numbers.target < 4294967296) },
    ghost places: { (nodes_back < 4294967296) × (arcs_back < 4294967296) × (rounds_back < 4294967296) },
}

pub fn num(bytes: &[u8], at: usize) -> usize
    ensures { result < 256 }
{
    byte(bytes, at) as usize
}

// The bytes from a place on, so many at most.
pub fn piece(bytes: &[u8], start: usize, count: usize) -> &[u8]
    ensures bytes { length result.now ≤ length bytes.now }
    ensures count { length result.now ≤ count }
{
    let rest = bytes.get(start..).unwrap_or(&[]);
    rest.get(..count).unwrap_or(rest)
}

// The word at a place, its lowest byte first.
fn word(file: &[u8], at: usize) -> usize
    requires { at ≤ 20000 }
    ensures { result < 4294967296 }
{
    let bytes = [at, at + 1, at + 2, at + 3].map(|i| byte(file, i) as u8);
    u32::from_le_bytes(bytes) as usize
}

impl Trailer {
    // The trailer of a file; a byte that it lacks is 0.
    pub fn of(file: &[u8]) -> Trailer
        requires { length file.now ≤ 10000 }
    {
        let at = file.len().saturating_sub(32);
        Trailer {
            nodes: word(file, at),
            numbers: Numbers {
                arcs: word(file, at + 4),
                rounds: word(file, at + 8),
                source: word(file, at + 12),
                target: word(file, at + 16),
            },
            nodes_back: word(file, at + 20),
            arcs_back: word(file, at + 24),
            rounds_back: word(file, at + 28),
        }
    }
}

// How many bytes are x.
pub fn of_class(bytes: &[u8], x: usize) -> usize
    ensures { result ≤ length bytes.now }
{
    bytes.iter().filter(|&&b| usize::from(b) == x).count()
}

// How many arcs are of a class: one way, or both ways.
pub fn arcs_of_class(arcs: &[u8], class: usize) -> usize
    requires { class ≤ 2 }
    ensures { result ≤ length arcs.now }
{
    arcs.iter()
        .skip(2)
        .step_by(3)
        .map(|&kind| usize::from(kind))
        .filter(|&kind| (kind == class) | (kind == class + 3))
        .count()
}

// How many members a class has: nodes and arcs.
pub fn members(nodes: &[u8], arcs: &[u8], class: usize) -> usize
    requires { (length nodes.now ≤ 10000) × (length arcs.now ≤ 10000) × (class ≤ 2) }
    ensures { result ≤ length nodes.now + length arcs.now }
{
    of_class(nodes, class) + arcs_of_class(arcs, class)
}

// How many bytes the orders of this many rounds take.
pub fn size_of(nodes: &[u8], arcs: &[u8], rounds: usize) -> usize
    requires { (length nodes.now ≤ 10000) × (length arcs.now ≤ 10000) × (rounds < 4294967296) }
    ensures most { result ≤ 180000000000000 }
    ensures each { result ≤ 8589934592 * (length nodes.now + length arcs.now) }
{
    let n = members(nodes, arcs, 1) + members(nodes, arcs, 2);
    rounds * n
}

pub fn class_above(bytes: &[u8]) -> bool {
    bytes.iter().any(|&x| 2 < x)
}

// Whether an entry, of so many bytes each, has an end that is no node, or both ends equal.
pub fn bad_arc(arcs: &[u8], size: usize, n: usize) -> bool
    requires { 0 < size }
{
    arcs.chunks_exact(size).any(|arc| {
        let from = num(arc, 0);
        let to = num(arc, 1);
        (n <= from) | (n <= to) | (from == to)
    })
}

fn bad_kind(arcs: &[u8]) -> bool {
    arcs.iter().skip(2).step_by(3).any(|&kind| 5 < kind)
}

// Whether a place of the order holds no member, or one that an earlier place holds.
fn bad_order<F: Fn(usize) -> bool>(bytes: &[u8], start: usize, end: usize, is_member: F) -> bool
    requires { F.IsAlwaysCallable is_member }
{
    for i in start..end {
        let v = num(bytes, i);
        if !is_member(v) | (start..i).any(|k| num(bytes, k) == v) {
            return true;
        }
    }
    false
}

// Whether one of so many rounds has a bad order: each is an order of n1 bytes and one of n2.
pub fn bad_rounds<F: Fn(u8, usize) -> bool>(
    bytes: &[u8],
    total: usize,
    n1: usize,
    n2: usize,
    is_member: F,
) -> bool
    requires small { (n1 ≤ 20000) × (n2 ≤ 20000) × (total < 4294967296) }
    requires callable { F.IsAlwaysCallable is_member }
{
    for r in 0..total {
        let at = r * (n1 + n2);
        let mid = at + n1;
        if bad_order(bytes, at, mid, |v| is_member(1, v))
            | bad_order(bytes, mid, mid + n2, |v| is_member(2, v))
        {
            return true;
        }
    }
    false
}

// 5, 8, 32 and 6: S-4's order.
fn parts(j: Judged, n: usize, nodes: &[u8], arcs: &[u8]) -> Judged
    requires { (length nodes.now ≤ 10000) × (length arcs.now ≤ 10000) }
{
    let large = (64 < members(nodes, arcs, 1)) | (64 < members(nodes, arcs, 2));
    j.note(class_above(nodes), 5)
        .note(bad_arc(arcs, 3, n), 8)
        .note(bad_kind(arcs), 32)
        .note(large, 6)
}

// 2 and 3, for N and the other numbers.
fn limits(j: Judged, n: usize, k: Numbers, whole_arcs: bool) -> Judged {
    let wrong = (n < 2) | (160 < n) | (1024 < k.arcs) | (100000 < k.rounds);
    j.note(wrong | !whole_arcs, 2).note(
        (n <= k.source) | (n <= k.target) | (k.source == k.target),
        3,
    )
}

// The writer's numbers but 15.
pub fn given(s: Sections<'_>) -> Judged
    requires { s.numbers.rounds < 4294967296 }
{
    let n = s.nodes.len();
    let n1 = members(s.nodes, s.arcs, 1);
    let n2 = members(s.nodes, s.arcs, 2);
    let is_member = |class, v| v < if class == 1 { n1 } else { n2 };
    let total = s.numbers.rounds;
    let arcs = s.arcs.len() / 3;
    let j = limits(
        Judged::default(),
        n,
        Numbers { arcs, ..s.numbers },
        s.arcs.len() % 3 == 0,
    );
    parts(j, n, s.nodes, s.arcs)
        .note(s.rounds.len() != size_of(s.nodes, s.arcs, total), 9)
        .note(bad_rounds(s.rounds, total, n1, n2, is_member), 11)
}

// 1, 2 and 3.
pub fn counts(file: &[u8]) -> Judged
    requires { length file.now ≤ 10000 }
{
    let t = Trailer::of(file);
    let length = (file.len() < 32) | (16777216 < file.len());
    limits(Judged::default().note(length, 1), t.nodes, t.numbers, true)
}

// 4, for an arc section of this many bytes.
pub fn behind(file: &[u8], arcs: usize) -> bool
    requires { length file.now ≤ 10000 }
{
    let t = Trailer::of(file);
    (t.arcs_back < t.rounds_back)
        | (t.nodes_back < t.arcs_back)
        | (file.len().saturating_sub(32) < t.nodes_back)
        | (t.nodes_back.saturating_sub(t.arcs_back) < t.nodes)
        | (t.arcs_back.saturating_sub(t.rounds_back) < arcs)
}

// The bytes of a section: so many from the distance before the trailer on.
pub fn section(file: &[u8], back: usize, count: usize) -> &[u8]
    requires { length file.now ≤ 10000 }
    ensures { length result.now ≤ 10000 }
{
    let end = file.len().saturating_sub(32);
    piece(file, end.saturating_sub(back), count)
}

pub fn nodes_of(file: &[u8]) -> &[u8]
    requires { length file.now ≤ 10000 }
    ensures { length result.now ≤ 10000 }
{
    let t = Trailer::of(file);
    section(file, t.nodes_back, t.nodes)
}

pub fn arcs_of(file: &[u8]) -> &[u8]
    requires { length file.now ≤ 10000 }
    ensures { length result.now ≤ 10000 }
{
    let t = Trailer::of(file);
    section(file, t.arcs_back, 3 * t.numbers.arcs)
}

// The numbers of opening.
pub fn opening(file: &[u8]) -> Judged
    requires { length file.now ≤ 10000 }
{
    let t = Trailer::of(file);
    let nodes = nodes_of(file);
    let arcs = arcs_of(file);
    let j = counts(file).note(behind(file, 3 * t.numbers.arcs), 4);
    let rounds = size_of(nodes, arcs, t.numbers.rounds);
    parts(j, t.nodes, nodes, arcs).note(t.rounds_back < rounds, 9)
}

// And 10 for a round number.
pub fn check(file: &[u8], round: usize) -> Judged
    requires { length file.now ≤ 10000 }
{
    opening(file).note(Trailer::of(file).numbers.rounds <= round, 10)
}

// The bytes of a round in a file that opens.
pub fn round(file: &[u8], round: usize) -> &[u8]
    requires { length file.now ≤ 10000 }
{
    let nodes = nodes_of(file);
    let arcs = arcs_of(file);
    let rounds = section(file, Trailer::of(file).rounds_back, file.len());
    piece(
        rounds,
        size_of(nodes, arcs, round % 1000000),
        size_of(nodes, arcs, 1),
    )
}

// A file of these sections, good or bad, behind so many bytes, in place of what was there: a file by
// value would be cleared and moved for each study.
pub fn file(s: Sections<'_>, front: usize, out: &mut File)
    requires { (length s.rounds.now ≤ 10000) × (front ≤ 100) }
    ensures { array_vec_len out.new ≡ front + length s.entry.nodes.now + length s.entry.arcs.now + length s.entry.rounds.now + 32 }
{
    let n = s.nodes.len();
    let k = s.numbers;
    let rounds = s.rounds.len();
    let arcs = s.arcs.len() + rounds;
    out.clear();
    let _ = out.try_extend_from_slice(&[0; 100][..front]);
    let _ = out.try_extend_from_slice(s.nodes);
    let _ = out.try_extend_from_slice(s.arcs);
    let _ = out.try_extend_from_slice(s.rounds);
    let trailer = [
        n,
        k.arcs,
        k.rounds,
        k.source,
        k.target,
        n + arcs,
        arcs,
        rounds,
    ]
    .map(|x| ((x % 4294967296) as u32).to_le_bytes());
    let _ = out.try_extend_from_slice(trailer.as_flattened());
}

// ---- output slices
// What every byte of an output slice is before a call.
pub const UNTOUCHED: u8 = 165;

// Whether the slice has these bytes at its front and is untouched behind them.
pub fn wrote(out: &[u8], bytes: &[u8]) -> bool {
    out.strip_prefix(bytes)
        .is_some_and(|rest| rest.iter().all(|&x| x == UNTOUCHED))
}
