// Tallies, chances and reliability.
ghost use Rattle.std.specs.Prelude.{◌≡◌, length};
ghost use Rattle.tally.specs.Calls.{new_answer, new_out, add_answer, add_out, remove_answer, remove_out, score_answer};
ghost use Rattle.weights.specs.Calls.{weights_answer, weights_out, ageing_answer};
ghost use Rattle.reliability.specs.Calls.{rate_answer};
ghost use Rattle.medlarbrace.specs.Interface.{code, value_left};

use medlarbrace::tallies;

// A tally of no rounds.
#[unsafe(no_mangle)]
pub extern "C" fn medlarbrace_tally_new(n1: u32, n2: u32, tally: &mut [u32]) -> u32
    ensures code { result ≡ code (new_answer n1 n2 (length tally.old)) }
    ensures slice { tally.new ≡ new_out n1 n2 tally.old }
{
    tallies::medlarbrace_tally_new(n1, n2, tally)
}

// Adds a front record to a tally.
#[unsafe(no_mangle)]
pub extern "C" fn medlarbrace_tally_add(record: &[u8], tally: &mut [u32]) -> u32
    ensures code { result ≡ code (add_answer «record».now tally.old) }
    ensures slice { tally.new ≡ add_out «record».now tally.old }
{
    tallies::medlarbrace_tally_add(record, tally)
}

// Removes a front record from a tally.
#[unsafe(no_mangle)]
pub extern "C" fn medlarbrace_tally_remove(record: &[u8], tally: &mut [u32]) -> u32
    ensures code { result ≡ code (remove_answer «record».now tally.old) }
    ensures slice { tally.new ≡ remove_out «record».now tally.old }
{
    tallies::medlarbrace_tally_remove(record, tally)
}

// The sum of a tally's cells, as its word has it, through `score`.
#[unsafe(no_mangle)]
pub extern "C" fn medlarbrace_tally_score(tally: &[u32], score: &mut u32) -> u32
    ensures code { result ≡ code (score_answer tally.now) }
    ensures score { score.new ≡ value_left 0 (score_answer tally.now) score.old }
{
    tallies::medlarbrace_tally_score(tally, score)
}

// The house's chance for an age, through `chance`.
#[unsafe(no_mangle)]
pub extern "C" fn medlarbrace_ageing(age: u64, chance: &mut u32) -> u32
    ensures code { result ≡ code (ageing_answer age) }
    ensures chance { chance.new ≡ value_left 0 (ageing_answer age) chance.old }
{
    tallies::medlarbrace_ageing(age, chance)
}

// The weights for n nodes of one class.
#[unsafe(no_mangle)]
pub extern "C" fn medlarbrace_weights(n: u32, chance: u32, weights: &mut [u32]) -> u32
    ensures code { result ≡ code (weights_answer n chance (length weights.old)) }
    ensures slice { weights.new ≡ weights_out n chance weights.old }
{
    tallies::medlarbrace_weights(n, chance, weights)
}

// The reliability of a tally at two chances; S, M and R through the pointers.
#[unsafe(no_mangle)]
pub extern "C" fn medlarbrace_reliability(
    tally: &[u32],
    chance1: u32,
    chance2: u32,
    sum: &mut u64,
    rounds: &mut u64,
    reliability: &mut u64,
) -> u32
    ensures code { result ≡ code (rate_answer tally.now chance1 chance2) }
    ensures sum { sum.new ≡ value_left 0 (rate_answer tally.now chance1 chance2) sum.old }
    ensures rounds { rounds.new ≡ value_left 1 (rate_answer tally.now chance1 chance2) rounds.old }
    ensures rate { reliability.new ≡ value_left 2 (rate_answer tally.now chance1 chance2) reliability.old }
{
    tallies::medlarbrace_reliability(tally, chance1, chance2, sum, rounds, reliability)
}
