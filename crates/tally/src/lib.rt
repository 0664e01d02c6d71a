// Tallies: for each count of working nodes, how many of the rounds that were added hold.
#![tactic(auto)]

ghost use Rattle.std.specs.Prelude.{◌≡◌, [], ◌∷◌, ◌++◌, ◌≤◌, ◌<◌, length, get_or, set, drop, replicate};
ghost use Rattle.answer.specs.Outcome.{success, done, scored};
ghost use Rattle.soundness.specs.Tally.{head_words};
ghost use Rattle.cells.specs.Steps.{changed_word, CanChange};
ghost use Rattle.tally.specs.Calls.{new_answer, new_out, fits_tally, add_answer, add_out, removable, remove_answer, remove_out, score_answer};
ghost use Rattle.tally.specs.Steps.{ready_answer, Changing, changed_tally};

use answer::Refusal;
use limits::MAX_CLASS;
use soundness::{FULL, HEAD, ROUNDS, SCORE};

// ---- new
// Zeros in the first n places.
fn clear(words: &mut [u32], n: usize)
    requires { n ≤ length words.old }
    ensures { words.new ≡ replicate n 0 ++ drop n words.old }
{
    for word in &mut words[..n] {
        *word = 0;
    }
}

// A tally of no rounds for the class sizes: numbers 6 and 21.
pub fn new(n1: u32, n2: u32, tally: &mut [u32]) -> Result<(), Refusal>
    ensures answer { done result ≡ new_answer n1 n2 (length tally.old) }
    ensures slice { tally.new ≡ new_out n1 n2 tally.old }
{
    let a = n1 as usize;
    let b = n2 as usize;
    if (a > MAX_CLASS) | (b > MAX_CLASS) {
        return Err(Refusal::ClassSize);
    }
    let n = HEAD + (a + 1) * (b + 1);
    if tally.len() < n {
        return Err(Refusal::TallyShort);
    }
    clear(tally, n);
    tally[0] = n1;
    tally[1] = n2;
    Ok(())
}

// ---- what add and remove share
// A word of the head changed.
fn change_word(tally: &mut [u32], at: usize, up: u32, down: u32)
    requires { (at < length tally.old) × CanChange up down (get_or tally.old at 0) }
    ensures { tally.new ≡ set tally.old at (changed_word up down (get_or tally.old at 0)) }
{
    let x = tally[at];
    tally[at] = x + up - down;
}

// Changes M and each cell where the record holds, and the score by as many cells.
fn change(record: &[u8], tally: &mut [u32], up: u32, down: u32)
    requires { Changing up down «record».now tally.old }
    ensures { tally.new ≡ changed_tally up down «record».now tally.old }
{
    change_word(tally, ROUNDS, up, down);
    let head = record::read_head(record);
    let n = cells::change_rows(&mut tally[HEAD..], record, head.n1, head.n2, up, down);
    change_word(tally, SCORE, n * up, n * down);
}

// Whether the record has the tally's class sizes.
fn same_sizes(record: &[u8], tally: &[u32]) -> bool
    requires { head_words ≤ length tally.now }
    ensures { result ≡ fits_tally «record».now tally.now }
{
    let head = record::read_head(record);
    let same1 = head.n1 as usize == tally[0] as usize;
    let same2 = head.n2 as usize == tally[1] as usize;
    same1 & same2
}

// What both test first: numbers 12 and 21 to 23.
fn ready(record: &[u8], tally: &[u32]) -> Result<(), Refusal>
    ensures { done result ≡ ready_answer «record».now tally.now }
{
    if !record::is_record(record) {
        return Err(Refusal::NotRecord);
    }
    // No `?`, here and in `add` and `remove`: it would call std, whose code `AlwaysEnds` (kinds) cannot open.
    if let Err(r) = soundness::check(tally) {
        return Err(r);
    }
    if !same_sizes(record, tally) {
        return Err(Refusal::TallySizes);
    }
    Ok(())
}

// ---- add
// Adds a front record: M, and each cell where it holds, raised by 1; numbers 12 and 21 to 24.
pub fn add(record: &[u8], tally: &mut [u32]) -> Result<(), Refusal>
    ensures answer { done result ≡ add_answer «record».now tally.old }
    ensures slice { tally.new ≡ add_out «record».now tally.old }
{
    if let Err(r) = ready(record, tally) {
        return Err(r);
    }
    if tally[ROUNDS] == FULL {
        return Err(Refusal::TallyFull);
    }
    change(record, tally, 1, 0);
    Ok(())
}

// ---- remove
// Whether M and each cell to be lowered are above 0, and the outcome is sound; nothing is written
// before the answer is known.
fn can_remove(record: &[u8], tally: &[u32]) -> bool
    requires { ready_answer «record».now tally.now ≡ success (0 ∷ []) }
    ensures { result ≡ removable «record».now tally.now }
{
    let head = record::read_head(record);
    let edges = cells::edges_ready(&tally[HEAD..], record, head.n1, head.n2);
    edges & cells::top_ready(&tally[HEAD..], record, head.n1, head.n2, tally[ROUNDS])
}

// Removes a front record: M, and each cell where it holds, lowered by 1; numbers 12, 21 to 23 and 31.
pub fn remove(record: &[u8], tally: &mut [u32]) -> Result<(), Refusal>
    ensures answer { done result ≡ remove_answer «record».now tally.old }
    ensures slice { tally.new ≡ remove_out «record».now tally.old }
{
    if let Err(r) = ready(record, tally) {
        return Err(r);
    }
    if !can_remove(record, tally) {
        return Err(Refusal::NotRemovable);
    }
    change(record, tally, 0, 1);
    Ok(())
}

// ---- score
// The sum of all cells, as its word has it: no cell is read, and soundness is not tested. Number 21
// below the words of the head.
pub fn score(tally: &[u32]) -> Result<u32, Refusal>
    ensures { scored result ≡ score_answer tally.now }
{
    if tally.len() < HEAD {
        return Err(Refusal::TallyShort);
    }
    Ok(tally[SCORE])
}
