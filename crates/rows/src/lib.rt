// Rows of words, bit j of the two words standing for access j, or 64 + j: their pairs, counted, and written into a lent buffer.
#![tactic(auto)]

pub mod set_bits;
pub mod writing;

ghost use Rattle.std.specs.Prelude.{◌≡◌, ◌*◌, ◌≤◌, length, replicate};
ghost use Rattle.std.proofs.lemmas.List.Edits.{sets};
ghost use Rattle.rules.specs.Bounded.{bytes_of};
ghost use Rattle.rows.specs.Writing.{rows_of};

use writing::{count_row, write_row};

// Row i is the two words low[i], high[i]. Two arrays, and not one of pairs, since each half is filled as one array of words.
#[derive(Clone, Copy)]
pub struct Rows {
    pub low: [u64; 128],
    pub high: [u64; 128],
}

impl Rows {
    // Rows with no number in them.
    pub fn empty() -> Rows
        ensures { (result.low ≡ replicate 128 0) × (result.high ≡ replicate 128 0) }
    {
        Rows {
            low: [0; 128],
            high: [0; 128],
        }
    }

    // How many pairs the first n rows have.
    pub fn count(&self, n: usize) -> usize
        requires { n ≤ 128 }
        ensures { result ≡ length (rows_of self.now.low self.now.high n) }
    {
        let mut count = 0;
        for row in 0..n {
            count += count_row(self.low[row], self.high[row]);
        }
        count
    }

    // The pairs of the first n rows, and how many bytes they take.
    pub fn write(&self, n: usize, out: &mut [u8]) -> usize
        requires { (n ≤ 128) × (2 * length (rows_of self.now.low self.now.high n) ≤ length out.old) }
        ensures { (out.new ≡ sets out.old 0 (bytes_of (rows_of self.now.low self.now.high n))) × (result ≡ 2 * length (rows_of self.now.low self.now.high n)) }
    {
        let mut at = 0;
        for i in 0..n {
            at = write_row(i as u8, self.low[i], self.high[i], out, at);
        }
        at
    }
}
