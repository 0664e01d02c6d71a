// The cells of a tally and a front record: each cell where it holds raised or lowered, and whether
// it may be lowered.
#![tactic(auto)]

ghost use Rattle.std.specs.Prelude.{◌≡◌, ◌||◌, map, ℕ, ◌+◌, ◌*◌, ◌≤◌, ◌<◌, T, ltb, length, get_or};
ghost use Rattle.limits.specs.Limits.{max_position};
ghost use Rattle.laws.specs.Every.{every};
ghost use Rattle.record.specs.Record.{listed, is_record, record_holds};
ghost use Rattle.soundness.specs.Tally.{width};
ghost use Rattle.cells.specs.Steps.{turn, turn_all, peak_at, starts_line, Lines, line_test, edges_test};
ghost use Rattle.cells.specs.Steps.{CanChange, changed_word, Fitting, CellsCanChange, changed_cells, held_cells};

use front::{Pair, Pos};
use limits::MAX_POSITION;

// ---- the record's heights
// Lines of cells: in a row the failures of class 1 stay, in a column those of class 2.
#[derive(Clone, Copy)]
enum Along {
    Rows,
    Columns,
}

// A pair as rows read it; columns read it by class 2, its positions exchanged.
fn turned(p: Pair, along: Along) -> Pair
    ensures { result ≡ turn along p }
{
    match along {
        Along::Rows => p,
        Along::Columns => Pair {
            p1: Pos(p.p2.0),
            p2: Pos(p.p1.0),
        },
    }
}

// For rows, for each p1 the largest p2 of the record's pairs, or 0; for columns, for each p2 the
// largest p1.
fn heights(record: &[u8], along: Along) -> [u8; MAX_POSITION + 1]
    requires { T (is_record «record».now) }
    ensures { (x : ℕ) → x < max_position + 1 → get_or result x 0 ≡ peak_at (turn_all along (listed «record».now)) x }
{
    let mut heights = [0u8; MAX_POSITION + 1];
    for i in 0..record::read_head(record).k {
        let p = turned(record::pair_at(record, i), along);
        let x = p.p1.0 as usize;
        heights[x] = Pos(heights[x]).max(p.p2).0;
    }
    heights
}

// ---- cells raised or lowered
// `up` more and then `down` fewer in each of some cells: one loop for both calls, without a branch.
fn change_part(cells: &mut [u32], up: u32, down: u32)
    requires { (i : ℕ) → i < length cells.old → CanChange up down (get_or cells.old i 0) }
    ensures { cells.new ≡ map (changed_word up down) cells.old }
{
    for x in cells {
        *x = *x + up - down;
    }
}

// Changes each cell where the record holds, a row at a time: with fewer failures of class 1 the
// height is no lower. How many cells they are.
pub fn change_rows(cells: &mut [u32], record: &[u8], n1: u8, n2: u8, up: u32, down: u32) -> u32
    requires { Fitting cells.old «record».now n1 n2 × CellsCanChange up down «record».now n1 n2 cells.old }
    ensures count { result ≡ held_cells «record».now n1 n2 }
    ensures slice { cells.new ≡ changed_cells up down «record».now n1 n2 cells.old }
{
    let top = heights(record, Along::Rows);
    let w = n2 as usize + 1;
    let mut y = Pos::<2>(0);
    let mut n = 0;
    let mut at = 0;
    for x in (1..=n1 as usize + 1).rev() {
        y = y.max(Pos(top[x]));
        let k = y.0 as usize;
        change_part(&mut cells[at + (w - k)..at + w], up, down);
        n += k;
        at += w;
    }
    n as u32
}

// ---- what a remove may lower
// In a sound tally an outcome can go wrong only where the record begins to hold in a row or in a
// column; so only there cells are compared.

// Of n cells from a place on, `step` apart: whether the first of the last z is above the one in
// front of it, or above 0 where there is none.
fn starts(cells: &[u32], at: usize, n: usize, z: usize, step: usize) -> bool
    requires { (z ≤ n) × ((i : ℕ) → i < n → at + i * step < length cells.now) }
    ensures { result ≡ starts_line cells.now at n z step }
{
    if z == 0 {
        return true;
    }
    let i = at + (n - z) * step;
    if z == n {
        return 0 < cells[i];
    }
    cells[i - step] < cells[i]
}

// The same of each of some lines, `stride` apart, for the cells where the record holds: of the rows,
// or of the columns.
fn lines_start(
    cells: &[u32],
    record: &[u8],
    along: Along,
    lines: usize,
    n: usize,
    stride: usize,
    step: usize,
) -> bool
    requires { Lines cells.now «record».now along lines n stride step }
    ensures { result ≡ every lines (line_test (turn_all along (listed «record».now)) lines cells.now n stride step) }
{
    let top = heights(record, along);
    let mut all = true;
    let mut y = Pos::<2>(0);
    let mut at = 0;
    for x in (1..=lines).rev() {
        y = y.max(Pos(top[x]));
        all &= starts(cells, at, n, y.0 as usize, step);
        at += stride;
    }
    all
}

// The same of every row and of every column.
pub fn edges_ready(cells: &[u32], record: &[u8], n1: u8, n2: u8) -> bool
    requires { Fitting cells.now «record».now n1 n2 }
    ensures { result ≡ edges_test «record».now n1 n2 cells.now }
{
    let h = n1 as usize + 1;
    let w = n2 as usize + 1;
    let rows = lines_start(cells, record, Along::Rows, h, w, w, 1);
    rows & lines_start(cells, record, Along::Columns, w, h, 1, w)
}

// Whether the record holds with all working, or the last cell is below m.
pub fn top_ready(cells: &[u32], record: &[u8], n1: u8, n2: u8, m: u32) -> bool
    requires { Fitting cells.now «record».now n1 n2 }
    ensures { result ≡ (record_holds «record».now 0 0 || ltb (get_or cells.now (n1 * width n2 + n2) 0) m) }
{
    let i = n1 as usize * (n2 as usize + 1) + n2 as usize;
    record::holds(record, 0, 0) | (cells[i] < m)
}
