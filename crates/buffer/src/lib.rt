// A front record that is built pair by pair.
#![tactic(auto)]

ghost use Rattle.std.specs.Prelude.{◌≡◌, [], ◌++◌, ◌∷◌, ◌≤◌, ◌-◌, length, replicate};
ghost use Rattle.limits.specs.Limits.{max_class};
ghost use Rattle.answer.specs.Outcome.{written, fill_answer, fill_out};
ghost use Rattle.record.specs.Record.{record_size1, record_size2, listed, front_bytes, longest};
ghost use Rattle.buffer.specs.Steps.{record_in, stored, Puttable};

use answer::Refusal;
use front::Pair;
use limits::MAX_CLASS;

// The most bytes that a record has: 3, and 2 for each pair.
pub const LONGEST: usize = 3 + 2 * (MAX_CLASS + 1);

// Bytes that begin with a front record: it ends with the last pair that byte 2 counts. Plain bytes and
// no `impl Model`: `empty` says of all of them what they are, and `deliver` takes any.
#[derive(Clone, Copy)]
pub struct FrontRecord {
    pub bytes: [u8; LONGEST],
}

impl FrontRecord {
    // The record of no pair.
    pub fn empty(n1: u8, n2: u8) -> FrontRecord
        ensures { result.bytes ≡ n1 ∷ n2 ∷ replicate (longest - 2) 0 }
    {
        let mut bytes = [0u8; LONGEST];
        bytes[0] = n1;
        bytes[1] = n2;
        FrontRecord { bytes }
    }

    // Puts one more pair into the record, which is then the front of its pairs and p.
    pub fn put(&mut self, p: Pair)
        requires { Puttable (record_in self.old.bytes) p }
        ensures long { length self.new.bytes ≡ longest }
        ensures front { let r = record_in self.old.bytes in
            record_in self.new.bytes ≡ front_bytes (record_size1 r) (record_size2 r) (listed r ++ p ∷ []) }
    {
        let k = self.bytes[2];
        if k == 0 {
            place(&mut self.bytes, 0, p);
            return;
        }
        let last = record::pair_at(&self.bytes, k - 1);
        if last.covers(p) {
            return;
        }
        if p.dominates(last) {
            place(&mut self.bytes, k - 1, p);
            return;
        }
        place(&mut self.bytes, k, p);
    }

    // Copies the record into `out`, or refuses where `out` is shorter.
    pub fn deliver(self, out: &mut [u8]) -> Result<usize, Refusal>
        ensures answer { written result ≡ fill_answer [] (record_in self.bytes) (length out.old) }
        ensures slice { out.new ≡ fill_out [] (record_in self.bytes) out.old }
    {
        let n = 3 + 2 * self.bytes[2] as usize;
        if n < LONGEST {
            return answer::deliver(&self.bytes[..n], out);
        }
        answer::deliver(&self.bytes, out)
    }
}

// Stores p at a place, as the last pair then.
fn place(bytes: &mut [u8; LONGEST], at: u8, p: Pair)
    requires { at ≤ max_class }
    ensures { bytes.new ≡ stored bytes.old at p }
{
    let i = 3 + 2 * at as usize;
    bytes[2] = at + 1;
    bytes[i] = p.p1.0;
    bytes[i + 1] = p.p2.0;
}
