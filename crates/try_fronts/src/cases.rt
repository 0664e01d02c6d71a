// Generated records: good ones of all sizes, and damaged ones.
ghost use Rattle.std.specs.Prelude.{◌≡◌, ◌+◌, ◌*◌, ◌≤◌, ◌<◌};
ghost use Rattle.arrayvec.specs.ArrayVec.{array_vec_len};

use arrayvec::ArrayVec;
use test_support::{byte, pick, poke};

// A record, or bytes that are none.
pub(crate) type Bytes = ArrayVec<u8, 160>;

// A class size: small as a rule, at times any, and 64 now and then.
fn size(seed: u64, use_of: u64) -> u64
    requires { use_of < 100 }
    ensures { result ≤ 65 }
{
    match pick(seed, use_of, 8) {
        0 => 64,
        1 => pick(seed, use_of + 1, 65),
        _ => pick(seed, use_of + 2, 9),
    }
}

// The bytes of a record: its sizes, how many pairs, and the pairs.
pub(crate) fn bytes_of(n1: u8, n2: u8, pairs: &ArrayVec<[u8; 2], 66>) -> Bytes
    ensures { (array_vec_len result ≡ 3 + 2 * array_vec_len pairs.now) × (array_vec_len result ≤ 135) }
{
    let mut bytes = ArrayVec::new();
    let _ = bytes.try_extend_from_slice(&[n1, n2, pairs.len() as u8]);
    let _ = bytes.try_extend_from_slice(pairs.as_flattened());
    bytes
}

// A record of the sizes n1 and n2.
fn fill(seed: u64, n1: u64, n2: u64) -> Bytes
    requires { (n1 ≤ 65) × (n2 ≤ 65) }
    ensures { (3 ≤ array_vec_len result) × (array_vec_len result ≤ 150) }
{
    let every = pick(seed, 40, 5) + 1;
    let mut pairs = ArrayVec::new();
    let mut y: u64 = 0;
    for x in (1..=n1 + 1).rev() {
        if (y <= n2) & (pick(seed, 100 + x, every) == 0) {
            y += 1 + pick(seed, 200 + x, (n2 + 1 - y) / 4 + 1);
            let _ = pairs.try_push([x as u8, (y % 256) as u8]);
        }
    }
    bytes_of(n1 as u8, n2 as u8, &pairs)
}

// Some damage, in one case of four: one byte changed, or the length.
fn damage(seed: u64, bytes: &mut Bytes) {
    let length = bytes.len();
    let at = pick(seed, 61, length as u64) as usize;
    match pick(seed, 60, 16) {
        0 => poke(bytes, at, pick(seed, 62, 256)),
        1 => poke(bytes, at, pick(seed, 62, 70)),
        2 => {
            let _ = bytes.try_push(0);
        }
        3 => bytes.truncate(length.saturating_sub(1)),
        _ => {}
    }
}

fn damaged(seed: u64, mut bytes: Bytes) -> Bytes {
    damage(seed, &mut bytes);
    bytes
}

pub(crate) fn make(seed: u64) -> Bytes {
    damaged(seed, fill(seed, size(seed, 1), size(seed, 5)))
}

// A second record, as a rule of the same sizes as the first.
pub(crate) fn partner(seed: u64, left: &[u8]) -> Bytes {
    let other = seed % 2147483648 + 77777;
    if pick(seed, 70, 12) == 0 {
        return make(other);
    }
    damaged(other, fill(other, byte(left, 0) % 65, byte(left, 1) % 65))
}

// The length of the output slice: long enough as a rule.
pub(crate) fn room(seed: u64) -> usize
    ensures { result ≤ 160 }
{
    match pick(seed, 80, 4) {
        0 => pick(seed, 81, 30) as usize,
        _ => 160,
    }
}
