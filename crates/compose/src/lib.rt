// Series and parallel (01: row and side): two front records joined into one.
//
// Each merges its two records in one pass, pair by pair, into a record of its own, and only then
// looks at the output slice: a refusal has written nothing.
#![tactic(auto)]

ghost use Rattle.std.specs.Prelude.{◌≡◌, [], ◌∷◌, length};
ghost use Rattle.answer.specs.Outcome.{written, done, outcome};
ghost use Rattle.buffer.specs.Steps.{record_in};
ghost use Rattle.compose.specs.Compose.{record_tests, series_bytes, parallel_bytes, series_answer, series_out, parallel_answer, parallel_out};
ghost use Rattle.compose.specs.Steps.{Joinable};

use answer::Refusal;
use buffer::FrontRecord;

// The series of two records: it holds where both do.
pub fn series(left: &[u8], right: &[u8], out: &mut [u8]) -> Result<usize, Refusal>
    ensures answer { written result ≡ series_answer left.now right.now (length out.old) }
    ensures slice { out.new ≡ series_out left.now right.now out.old }
{
    // No `?`: it would call std, whose code `AlwaysEnds` (kinds) cannot open.
    if let Err(r) = joinable(left, right) {
        return Err(r);
    }
    merge_series(left, right).deliver(out)
}

// The parallel of two records: it holds where one of them does.
pub fn parallel(left: &[u8], right: &[u8], out: &mut [u8]) -> Result<usize, Refusal>
    ensures answer { written result ≡ parallel_answer left.now right.now (length out.old) }
    ensures slice { out.new ≡ parallel_out left.now right.now out.old }
{
    // No `?`: it would call std, whose code `AlwaysEnds` (kinds) cannot open.
    if let Err(r) = joinable(left, right) {
        return Err(r);
    }
    merge_parallel(left, right).deliver(out)
}

// Numbers 12 and 13.
fn joinable(left: &[u8], right: &[u8]) -> Result<(), Refusal>
    ensures { done result ≡ outcome (record_tests left.now right.now) (0 ∷ []) }
{
    let records = record::is_record(left) & record::is_record(right);
    let l = record::read_head(left);
    let r = record::read_head(right);
    let same = (l.n1 == r.n1) & (l.n2 == r.n2);
    if !records {
        return Err(Refusal::NotRecord);
    }
    if !same {
        return Err(Refusal::SizesDiffer);
    }
    Ok(())
}

// The front of all pairwise minima. Of two pairs the one with the smaller p2 is done with: its
// minimum with any later pair of the other record is no larger.
fn merge_series(left: &[u8], right: &[u8]) -> FrontRecord
    requires { Joinable left.now right.now }
    ensures { record_in result.bytes ≡ series_bytes left.now right.now }
{
    let l = record::read_head(left);
    let k = l.k;
    let m = record::read_head(right).k;
    let mut joined = FrontRecord::empty(l.n1, l.n2);
    let mut i: u8 = 0;
    let mut j: u8 = 0;
    // A while: the pairs say which record's place moves, so no range fits.
    while i < k && j < m {
        let p = record::pair_at(left, i);
        let q = record::pair_at(right, j);
        joined.put(p.min(q));
        if q.p2.at_least(p.p2) {
            i += 1;
        } else {
            j += 1;
        }
    }
    joined
}

// The front of both lists together, taken in the order of falling p1.
fn merge_parallel(left: &[u8], right: &[u8]) -> FrontRecord
    requires { Joinable left.now right.now }
    ensures { record_in result.bytes ≡ parallel_bytes left.now right.now }
{
    let l = record::read_head(left);
    let pairs = l.k + record::read_head(right).k;
    let mut joined = FrontRecord::empty(l.n1, l.n2);
    let mut i: u8 = 0;
    let mut j: u8 = 0;
    // Both places are kept: j as n - i would be reckoned anew, and its pair read anew, in each turn.
    for n in 0..pairs {
        let p = record::pair_at(left, i);
        let q = record::pair_at(right, j);
        if p.p1.at_least(q.p1) {
            joined.put(p);
            i += 1;
        } else {
            joined.put(q);
            j += 1;
        }
    }
    joined
}
