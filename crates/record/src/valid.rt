// The test of number 12.
ghost use Rattle.std.specs.Prelude.{◌≡◌, ◌&&◌, ◌+◌, ◌*◌, ◌≤◌, length};
ghost use Rattle.limits.specs.Limits.{max_class};
ghost use Rattle.laws.specs.Members.{all};
ghost use Rattle.record.specs.Record.{pair_count, listed, in_range, follows, falling, is_record};

use crate::{Head, pair_at, read_head};
use front::{Pair, Pos};
use limits::MAX_CLASS;

// The largest class size that a record may name.
const MOST: u8 = MAX_CLASS as u8;

// Number 12's test: whether the bytes are a front record.
pub fn is_record(bytes: &[u8]) -> bool
    ensures { result ≡ is_record bytes.now }
{
    let Head { n1, n2, k } = read_head(bytes);
    if MOST < n1 {
        return false;
    }
    if MOST < n2 {
        return false;
    }
    if bytes.len() != 3 + 2 * k as usize {
        return false;
    }
    if n1 + 1 < k {
        return false;
    }
    if n2 + 1 < k {
        return false;
    }
    pairs_fit(bytes, n1, n2)
}

// Whether every pair is in range, p1 strictly falls and p2 strictly rises.
fn pairs_fit(bytes: &[u8], n1: u8, n2: u8) -> bool
    requires { (n1 ≤ max_class) × (n2 ≤ max_class) × (length bytes.now ≡ 3 + 2 * pair_count bytes.now) }
    ensures { result ≡ (all (in_range n1 n2) (listed bytes.now) && falling (listed bytes.now)) }
{
    let k = read_head(bytes).k;
    let mut last = Pair {
        p1: Pos(n1 + 2),
        p2: Pos(0),
    };
    for i in 0..k {
        let p = pair_at(bytes, i);
        if !fits(n1, n2, last, p) {
            return false;
        }
        last = p;
    }
    true
}

// Whether p is in range and may follow the pair before it.
fn fits(n1: u8, n2: u8, last: Pair, p: Pair) -> bool
    requires { (n1 ≤ max_class) × (n2 ≤ max_class) }
    ensures { result ≡ (in_range n1 n2 p && follows last p) }
{
    let x = p.p1;
    let y = p.p2;
    let in1 = x.at_least(Pos(1)) & Pos(n1 + 1).at_least(x);
    let in2 = y.at_least(Pos(1)) & Pos(n2 + 1).at_least(y);
    (in1 & in2) & (last.p1.above(x) & y.above(last.p2))
}
