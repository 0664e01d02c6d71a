// What the test programs share: numbers from a seed, bytes and words read and stored without a
// thought for ends, and where a record holds.
#![tactic(auto)]

ghost use Rattle.std.specs.Prelude.{◌≤◌, ◌<◌};

fn next(x: u64) -> u64
    ensures { result < 2147483648 }
{
    (x % 2147483648 * 1103515245 + 12345) % 2147483648
}

// A seed for each case.
pub fn seed(i: u64) -> u64
    ensures { result < 2147483648 }
{
    next(next(i % 1000000 * 2 + 1))
}

// A number from a seed, below n, for each use its own.
pub fn pick(seed: u64, use_of: u64, n: u64) -> u64
    ensures { result ≤ n }
{
    if n == 0 {
        return 0;
    }
    next(next(seed % 2147483648 + use_of % 65536 * 7919)) / 64 % n
}

// The byte at a place, and 0 past the end.
pub fn byte(bytes: &[u8], at: usize) -> u64
    ensures { result < 256 }
{
    bytes.get(at).map_or(0, |&x| u64::from(x))
}

// Stores a byte where the slice has that place.
pub fn poke(bytes: &mut [u8], at: usize, value: u64) {
    if let Some(x) = bytes.get_mut(at) {
        *x = (value % 256) as u8;
    }
}

// The n bytes from a place on; none where they do not fit.
pub fn part(bytes: &[u8], at: usize, n: usize) -> &[u8]
    requires { (at ≤ 1000000) × (n < 4294967296) }
{
    bytes.get(at..at + n).unwrap_or(&[])
}

// The word at a place, and 0 past the end. Not one generic function with `byte`: a bound `From` says
// nothing of how large the number is.
pub fn word(words: &[u32], at: usize) -> u64
    ensures { result < 4294967296 }
{
    words.get(at).map_or(0, |&x| u64::from(x))
}

// Stores a word where the slice has that place. Not one generic function with `poke`: the two casts
// differ, and a trait for them would be longer than both.
pub fn put(words: &mut [u32], at: usize, value: u64) {
    if let Some(x) = words.get_mut(at) {
        *x = (value % 4294967296) as u32;
    }
}

// A product that fits.
pub fn times(x: u64, y: u64) -> u64
    requires { (x < 4294967296) × (y ≤ 1000000) }
    ensures { result ≤ 4294967296000000 }
{
    x * y
}

// Whether a pair of the record is above (a, b) in both numbers.
pub fn record_holds(record: &[u8], a: u64, b: u64) -> bool {
    let [_, _, k, pairs @ ..] = record else {
        return false;
    };
    pairs
        .chunks_exact(2)
        .take(usize::from(*k))
        .any(|pair| (a < byte(pair, 0)) & (b < byte(pair, 1)))
}
