// Weights of the counts of working nodes, and house ageing.
#![tactic(auto)]

ghost use Rattle.std.specs.Prelude.{◌≡◌, ◌++◌, ℕ, ◌+◌, ◌≤◌, ◌<◌, length, get_or, take, drop};
ghost use Rattle.answer.specs.Outcome.{done, aged};
ghost use Rattle.chance.specs.Chance.{sends, spread, weights};
ghost use Rattle.weights.specs.Calls.{weights_answer, weights_out, ageing_answer};

use answer::Refusal;
use limits::MAX_CLASS;

// ---- weights
// The largest number of nodes.
const MOST: u32 = MAX_CLASS as u32;

// What the weight w sends on at the chance p.
fn share(p: u32, w: u32) -> u32
    requires { p ≤ 1000000 }
    ensures { (result ≡ sends p w) × (result ≤ w) }
{
    (w as u64 * p as u64 / 1000000) as u32
}

// One node more: the first m words are the old weights, and m + 1 new ones are written over them.
fn step(p: u32, m: usize, out: &mut [u32])
    requires { (p ≤ 1000000) × (m < length out.old) × ((l : ℕ) → get_or (spread p 0 (take m out.old)) l 0 ≤ 10000000) }
    ensures { out.new ≡ spread p 0 (take m out.old) ++ drop (m + 1) out.old }
{
    let mut carry: u32 = 0;
    for l in 0..m {
        let w = out[l];
        let s = share(p, w);
        out[l] = w - s + carry;
        carry = s;
    }
    out[m] = carry;
}

// The weights for n nodes, node after node.
pub fn fill(p: u32, n: usize, out: &mut [u32])
    requires { (p ≤ 1000000) × (n < length out.old) }
    ensures { out.new ≡ weights p n ++ drop (n + 1) out.old }
{
    out[0] = 10000000;
    for i in 0..n {
        step(p, i + 1, out);
    }
}

// The weights for n nodes at the chance p: numbers 6, 14 and 15.
pub fn weights(n: u32, p: u32, out: &mut [u32]) -> Result<(), Refusal>
    ensures answer { done result ≡ weights_answer n p (length out.old) }
    ensures slice { out.new ≡ weights_out n p out.old }
{
    if n > MOST {
        return Err(Refusal::ClassSize);
    }
    if p > 1000000 {
        return Err(Refusal::Probability);
    }
    let k = n as usize;
    if out.len() < k + 1 {
        return Err(Refusal::OutputShort);
    }
    fill(p, k, out);
    Ok(())
}

// ---- ageing
// The chance that a node of that age in years works, in millionths: number 14. The test comes first, so that no product meets a large age.
pub fn ageing(age: u64) -> Result<u32, Refusal>
    ensures { aged result ≡ ageing_answer age }
{
    if age > 30 {
        return Err(Refusal::Probability);
    }
    let y = age as u32;
    Ok(1000000 - 1000 * (y * y))
}
