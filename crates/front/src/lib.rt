// Positions of the two classes, and the pair of a route.
#![tactic(auto)]

mod pos;

ghost use Rattle.std.specs.Prelude.{◌≡◌};
ghost use Rattle.front.specs.Pair.{min_pair, covers, same, dominates, holds_at};

pub use pos::{Pos, Pos1, Pos2};

// The least position of each class on a route.
#[derive(Clone, Copy)]
pub struct Pair {
    pub p1: Pos1,
    pub p2: Pos2,
}

// By the methods of `Pos`, and without derives, for the reason given there.
impl Pair {
    // The smaller position of each class.
    pub fn min(self, other: Pair) -> Pair
        ensures { result ≡ min_pair self other }
    {
        Pair {
            p1: self.p1.min(other.p1),
            p2: self.p2.min(other.p2),
        }
    }

    // At least as large in both positions.
    pub fn covers(self, other: Pair) -> bool
        ensures { result ≡ covers self other }
    {
        self.p1.at_least(other.p1) & self.p2.at_least(other.p2)
    }

    pub fn same(self, other: Pair) -> bool
        ensures { result ≡ same self other }
    {
        self.p1.same(other.p1) & self.p2.same(other.p2)
    }

    // Covers the other, and differs from it.
    pub fn dominates(self, other: Pair) -> bool
        ensures { result ≡ dominates self other }
    {
        self.covers(other) & !self.same(other)
    }

    // Whether the pair holds after a failures of class 1 and b of class 2.
    pub fn holds(self, a: u8, b: u8) -> bool
        ensures { result ≡ holds_at self a b }
    {
        self.p1.outlasts(a) & self.p2.outlasts(b)
    }
}
