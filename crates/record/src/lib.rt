// Front records as bytes: n1, n2, k, then k pairs of bytes, p1 falling and p2 rising.
#![tactic(auto)]

mod valid;

ghost use Rattle.std.specs.Prelude.{◌≡◌};
ghost use Rattle.record.specs.Record.{record_size1, record_size2, pair_count, record_holds};
ghost use Rattle.record.specs.Steps.{pair_at};

use front::{Pair, Pos};
use slices::byte;
pub use valid::is_record;

// The three bytes in front of the pairs.
#[derive(Clone, Copy)]
pub struct Head {
    pub n1: u8,
    pub n2: u8,
    pub k: u8,
}

// The head of a record; 0 for what the bytes do not have.
pub fn read_head(bytes: &[u8]) -> Head
    ensures { (result.n1 ≡ record_size1 bytes.now) × (result.n2 ≡ record_size2 bytes.now) × (result.k ≡ pair_count bytes.now) }
{
    Head {
        n1: byte(bytes, 0),
        n2: byte(bytes, 1),
        k: byte(bytes, 2),
    }
}

// The pair at a place of a record; (0, 0), which holds nowhere, past its bytes.
pub fn pair_at(bytes: &[u8], i: u8) -> Pair
    ensures { result ≡ pair_at bytes.now i }
{
    let at = 3 + 2 * i as usize;
    Pair {
        p1: Pos(byte(bytes, at)),
        p2: Pos(byte(bytes, at + 1)),
    }
}

// Whether the record holds at (a, b).
pub fn holds(bytes: &[u8], a: u8, b: u8) -> bool
    ensures { result ≡ record_holds bytes.now a b }
{
    let [_, _, _, pairs @ ..] = bytes else {
        return false;
    };
    let mut left = pairs;
    // Two bytes a turn: `chunks` would call std, whose code `AlwaysEnds` (kinds) cannot open.
    while let [p1, p2, rest @ ..] = left {
        let p = Pair {
            p1: Pos(*p1),
            p2: Pos(*p2),
        };
        if p.holds(a, b) {
            return true;
        }
        left = rest;
    }
    false
}
