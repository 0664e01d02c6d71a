// The plain check: a record's cells one by one, and the corners of what holds.
ghost use Rattle.std.specs.Prelude.{◌≤◌, ◌<◌, IfSome};

use crate::Join;
use crate::cases::{Bytes, bytes_of};
use arrayvec::ArrayVec;

fn pairs(bytes: &[u8]) -> &[[u8; 2]] {
    bytes.get(3..).unwrap_or(&[]).as_chunks().0
}

// Whether some pair of the bytes is above a in p1 and above b in p2.
fn cell(bytes: &[u8], a: u8, b: u8) -> bool {
    pairs(bytes)
        .iter()
        .any(|pair| (a < pair[0]) & (b < pair[1]))
}

// Document 01's record paragraph, clause by clause: the sizes of a record; none where the bytes are
// no record.
fn sizes(bytes: &[u8]) -> Option<(u8, u8)>
    ensures { IfSome result (λ sizes. (sizes.0 ≤ 64) × (sizes.1 ≤ 64)) }
{
    let &[n1, n2, k, ..] = bytes else {
        return None;
    };
    if (64 < n1) | (64 < n2) {
        return None;
    }
    let most1 = n1 + 1;
    let most2 = n2 + 1;
    let pairs = pairs(bytes);
    let counts = (bytes.len() == 3 + 2 * k as usize) & (k <= most1) & (k <= most2);
    let within = pairs.iter().all(|pair| {
        (1 <= pair[0]) & (pair[0] <= most1) & (1 <= pair[1]) & (pair[1] <= most2)
    });
    let falling = pairs.array_windows::<2>().all(|[before, after]| (after[0] < before[0])
        & (before[1] < after[1]));
    (counts & within & falling).then_some((n1, n2))
}

impl Join {
    // Whether the joined plan holds at a cell.
    fn cell(self, left: &[u8], right: &[u8], a: u8, b: u8) -> bool {
        let x = cell(left, a, b);
        let y = cell(right, a, b);
        match self {
            Join::Series => x & y,
            Join::Parallel => x | y,
        }
    }

    // Whether a cell of the joined plan holds while the next in each class does not.
    fn corner(self, left: &[u8], right: &[u8], a: u8, b: u8) -> bool
        requires { (a < 255) × (b < 255) }
    {
        self.cell(left, right, a, b)
            & !self.cell(left, right, a + 1, b)
            & !self.cell(left, right, a, b + 1)
    }

    // The record of all corners, or 12 or 13.
    pub(crate) fn plain(self, left: &[u8], right: &[u8]) -> Result<Bytes, u32> {
        let (Some((n1, n2)), Some(other)) = (sizes(left), sizes(right)) else {
            return Err(12);
        };
        if other != (n1, n2) {
            return Err(13);
        }
        // No record has more pairs than 65: one more shows as a wrong length.
        let mut pairs = ArrayVec::new();
        for a in (0..=n1).rev() {
            for b in 0..=n2 {
                if self.corner(left, right, a, b) {
                    let _ = pairs.try_push([a + 1, b + 1]);
                }
            }
        }
        Ok(bytes_of(n1, n2, &pairs))
    }
}
