// Positions of a class.
ghost use Rattle.std.specs.Prelude.{◌≡◌, min, max, leb, ltb, eqb};

// A position of a class, counted from 1; one more than the class has members stands for none of them.
// The class is part of the type, so that a minimum or a comparison never crosses classes.
#[derive(Clone, Copy)]
pub struct Pos<const CLASS: u8>(pub u8);

// The order of the bytes. Derives would call std's comparisons, whose code no theorem on the code of a
// call (`AlwaysEnds` of the calls in kinds) can open.
impl<const CLASS: u8> Pos<CLASS> {
    pub fn min(self, other: Pos<CLASS>) -> Pos<CLASS>
        ensures { result.0 ≡ min self.entry.0 other.entry.0 }
    {
        if self.0 < other.0 { self } else { other }
    }

    pub fn max(self, other: Pos<CLASS>) -> Pos<CLASS>
        ensures { result.0 ≡ max self.entry.0 other.entry.0 }
    {
        if other.0 <= self.0 { self } else { other }
    }

    pub fn at_least(self, other: Pos<CLASS>) -> bool
        ensures { result ≡ leb other.entry.0 self.entry.0 }
    {
        other.0 <= self.0
    }

    pub fn above(self, other: Pos<CLASS>) -> bool
        ensures { result ≡ ltb other.entry.0 self.entry.0 }
    {
        other.0 < self.0
    }

    pub fn same(self, other: Pos<CLASS>) -> bool
        ensures { result ≡ eqb self.entry.0 other.entry.0 }
    {
        self.0 == other.0
    }

    // Whether a member at this position still works after so many failures of its class.
    pub fn outlasts(self, failures: u8) -> bool
        ensures { result ≡ ltb failures self.entry.0 }
    {
        failures < self.0
    }
}

pub type Pos1 = Pos<1>;

pub type Pos2 = Pos<2>;
