// The pairs of a row of words into a lent buffer, two bytes a pair. The place goes on by two from word to word and from row to row, so no range and
// no chunks of the buffer say it plainer; nor does a pen, which tests each byte against the end where the room is proved.
ghost use Rattle.std.specs.Prelude.{◌≡◌, ◌+◌, ◌*◌, ◌≤◌, length};
ghost use Rattle.rules.specs.Bounded.{bytes_of};
ghost use Rattle.rows.specs.Writing.{Wrote, Counted, row_of, bit_pairs, run_pairs};

use crate::set_bits::bits;

// How many numbers are in the row.
pub fn count_row(low: u64, high: u64) -> usize
    ensures { Counted low high result }
{
    (low.count_ones() + high.count_ones()) as usize
}

// The pairs of i with from, from + 1, .. from + n - 1.
fn write_run(i: u8, from: usize, n: usize, out: &mut [u8], at: usize) -> usize
    requires { (from + n ≤ 256) × (at + 2 * n ≤ length out.old) }
    ensures { Wrote out.old at (run_pairs i from n) out.new result }
{
    let mut k = at;
    for j in from..from + n {
        out[k] = i;
        out[k + 1] = j as u8;
        k += 2;
    }
    k
}

// The numbers that i is paired with, as far as one word tells them: bit 0 stands for from.
#[derive(Clone, Copy)]
struct Word {
    i: u8,
    from: usize,
    bits: u64,
    ghost bytes: { from + 64 ≤ 256 },
}

impl Word {
    // Run by run, for words with many bits: a run moves on by its own length, so no range says it plainer.
    fn write_runs(self, out: &mut [u8], at: usize) -> usize
        requires { at + length (bit_pairs 64 self.i self.from self.bits) ≤ length out.old }
        ensures { Wrote out.old at (bit_pairs 64 self.i self.from self.bits) out.new result }
    {
        let mut x = self.bits;
        let mut j = self.from;
        let mut k = at;
        while x != 0 {
            let z = x.trailing_zeros() as usize;
            x >>= z;
            j += z;
            let l = (!x).trailing_zeros() as usize;
            k = write_run(self.i, j, l, out, k);
            x = (x >> (l - 1)) >> 1;
            j += l;
        }
        k
    }

    // The same bit by bit, for words with few.
    #[tactic(auto, using(crate::proofs::BitList::below_64))]
    fn write_bits(self, out: &mut [u8], at: usize) -> usize
        requires { at + length (bit_pairs 64 self.i self.from self.bits) ≤ length out.old }
        ensures { Wrote out.old at (bit_pairs 64 self.i self.from self.bits) out.new result }
    {
        let mut k = at;
        for j in bits(self.bits) {
            out[k] = self.i;
            out[k + 1] = (self.from + j) as u8;
            k += 2;
        }
        k
    }

    // Few bits, surely, where the upper ones are clear. A test of its own, since with the other in one condition both are made for every word.
    fn write(self, out: &mut [u8], at: usize) -> usize
        requires { at + length (bit_pairs 64 self.i self.from self.bits) ≤ length out.old }
        ensures { Wrote out.old at (bit_pairs 64 self.i self.from self.bits) out.new result }
    {
        if self.bits >> 40 == 0 {
            return self.write_bits(out, at);
        }
        if 40 < self.bits.count_ones() {
            return self.write_runs(out, at);
        }
        self.write_bits(out, at)
    }
}

fn write_words(i: u8, low: u64, high: u64, out: &mut [u8], at: usize) -> usize
    requires { at + length (bytes_of (row_of low high i)) ≤ length out.old }
    ensures { Wrote out.old at (bytes_of (row_of low high i)) out.new result }
{
    let first = Word {
        i,
        from: 0,
        bits: low,
    };
    let second = Word {
        i,
        from: 64,
        bits: high,
    };
    let k = first.write(out, at);
    second.write(out, k)
}

// The pairs of i with the numbers of the row, in order. Most rows have none.
pub fn write_row(i: u8, low: u64, high: u64, out: &mut [u8], at: usize) -> usize
    requires { at + length (bytes_of (row_of low high i)) ≤ length out.old }
    ensures { Wrote out.old at (bytes_of (row_of low high i)) out.new result }
{
    if low != 0 || high != 0 {
        return write_words(i, low, high, out, at);
    }
    at
}
