// Document 01's E, exact: large numbers in words below 10^6, the lowest first. No code is shared
// with the library.
#![tactic(auto)]

ghost use Rattle.std.specs.Prelude.{◌≤◌};

use test_support::times;

// The words of a large number: room for 10^14 × E at n1 + n2 = 128.
const WORDS: usize = 134;

type Large = [u32; WORDS];

// A large number for each l from 0 to 64.
type Column = [Large; 65];

const ZERO: Large = [0; WORDS];

// ---- passes
// A number becomes 10^6 − p times itself and p times the next.
fn mix(p: u64, number: &mut Large, next: &Large)
    requires { p ≤ 1000000 }
{
    let mut carry: u64 = 0;
    for (word, joining) in number.iter_mut().zip(next) {
        let x = times(*word as u64, 1000000 - p) + times(*joining as u64, p) + carry;
        *word = (x % 1000000) as u32;
        carry = x / 1000000;
    }
}

// n passes over each of the first numbers, with the next: the first becomes the sum of number l
// times b(n, l), over l.
fn fold(p: u64, numbers: &mut Column, n: usize) -> Large
    requires { (p ≤ 1000000) × (n ≤ 64) }
{
    for k in (1..=n).rev() {
        for l in 0..k {
            let next = numbers[l + 1];
            mix(p, &mut numbers[l], &next);
        }
    }
    numbers[0]
}

// ---- 10^14 × E over D = 10^(6(n1 + n2))
// The sum over l2 of a row of cells, each times 10^14.
fn sum_row(p2: u64, cells: &[u8; 65], n2: usize) -> Large
    requires { (p2 ≤ 1000000) × (n2 ≤ 64) }
{
    let mut row = [ZERO; 65];
    for (number, cell) in row.iter_mut().zip(cells) {
        number[2] = 100 * *cell as u32;
    }
    fold(p2, &mut row, n2)
}

// The whole numbers at or next to a quotient, below and above; one number where it is whole.
#[derive(Clone, Copy)]
pub struct Between {
    pub floor: u64,
    pub ceiling: u64,
}

// Cells by l1 and l2. D is as many words as there are nodes.
pub fn exact(cells: &[[u8; 65]; 65], n1: usize, n2: usize, p1: u64, p2: u64) -> Between
    requires { (n1 ≤ 64) × (n2 ≤ 64) × (p1 ≤ 1000000) × (p2 ≤ 1000000) }
{
    let mut column = [ZERO; 65];
    for (number, row) in column.iter_mut().zip(cells).take(n1 + 1) {
        *number = sum_row(p2, row, n2);
    }
    let sum = fold(p1, &mut column, n1);
    let n = n1 + n2;
    let word = |i: usize| (sum[i] % 1000000) as u64;
    let floor = word(n) + 1000000 * word(n + 1) + 1000000000000 * word(n + 2);
    let more = sum[..n].iter().any(|word| *word != 0);
    Between {
        floor,
        ceiling: floor + more as u64,
    }
}
