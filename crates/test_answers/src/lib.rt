// What the calls answered, as document 01 numbers it.
#![tactic(auto)]

use answer::Refusal;

// The number of a refusal; none for a success.
pub fn number<T: Drop>(answer: Result<T, Refusal>) -> Option<u32> {
    answer.err().map(u32::from)
}
