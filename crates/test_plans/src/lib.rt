// Plans: records of searched rounds joined to any depth by the library, tables by their cells.
#![tactic(auto)]

ghost use Rattle.std.specs.Prelude.{◌+◌, ◌≤◌};

use test_removal::{Cells, Found, Record, differ};
use test_support::pick;

#[derive(Clone, Copy)]
enum Join {
    Series,
    Parallel,
}

// A record with the bytes of another.
fn copied(record: &[u8]) -> Record {
    Record::try_from(record).unwrap_or_default()
}

// The record of two joined by the call; an empty one where it refuses.
fn join_records(join: Join, left: &[u8], right: &[u8]) -> Record {
    let mut out = [0u8; 160];
    let written = match join {
        Join::Series => compose::series(left, right, &mut out),
        Join::Parallel => compose::parallel(left, right, &mut out),
    };
    copied(out.get(..written.unwrap_or(0)).unwrap_or(&[]))
}

fn join_cells(join: Join, left: &Cells<bool>, right: &Cells<bool>) -> Cells<bool> {
    let mut cells = *left;
    for (row, others) in cells.iter_mut().zip(right) {
        for (cell, other) in row.iter_mut().zip(others) {
            match join {
                Join::Series => *cell &= *other,
                Join::Parallel => *cell |= *other,
            }
        }
    }
    cells
}

// A plan of searched rounds, as many leaves as a power of 2, at random among eight; the first of
// them is leaf `at`.
fn plan(seed: u64, leaves: u64, at: u64, rounds: &[Found]) -> Found
    requires { at + leaves ≤ 64 }
{
    if leaves < 2 {
        let Some(leaf) = rounds.get(pick(seed, 60000 + at, 8) as usize) else {
            return Found::default();
        };
        return Found {
            record: copied(&leaf.record),
            cells: leaf.cells,
        };
    }
    let half = leaves / 2;
    let left = plan(seed, half, at, rounds);
    let right = plan(seed, half, at + half, rounds);
    // Its last leaf, and how many plans of half its leaves end there, number the draw.
    let end = at + leaves;
    let draw = 70000 + (end - 1) * 64 + end / half;
    let join = match pick(seed, draw, 2) {
        0 => Join::Series,
        _ => Join::Parallel,
    };
    Found {
        record: join_records(join, &left.record, &right.record),
        cells: join_cells(join, &left.cells, &right.cells),
    }
}

// A plan of 2 to 32 of the rounds, and the cells in which it differs from removal testing.
pub fn try_plan(seed: u64, rounds: &[Found]) -> u64 {
    let leaves = (2u64 << pick(seed, 5, 5)).min(32);
    let plan = plan(seed, leaves, 0, rounds);
    differ(&plan.record, &plan.cells)
}
