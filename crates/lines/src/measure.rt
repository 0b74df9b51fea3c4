// How many bytes the lines of rows of words take: counted from the lengths of their heads and tails, nothing is written.
ghost use Rattle.std.specs.Prelude.{◌≡◌, ◌+◌, ◌<◌, ◌≤◌, length, get_or, replicate};
ghost use Rattle.rules.specs.Listing.{lines};
ghost use Rattle.table.specs.Answers.{shown};
ghost use Rattle.rows.specs.Writing.{row_of, rows_of};
ghost use Rattle.lines.specs.Lines.{pair_line, seconds, bit_lines, blank, Lengths};
ghost use Rattle.lines.specs.OneProof.{lengths_prop};

use crate::Pairs;
use rows::set_bits::bits;
use rows::writing::count_row;

// The length of each tail of a section. The lengths are lent, since an array handed back would be copied.
#[derive(Clone, Copy)]
pub(crate) struct Measured<'a> {
    pub(crate) pairs: Pairs<'a>,
    pub(crate) lens: &'a [u8; 128],
    pub(crate) ghost lengths: { Lengths pairs.which (shown pairs.t) (seconds pairs.which (shown pairs.t)) lens.now } by { lengths_prop pairs.which (shown pairs.t) (seconds pairs.which (shown pairs.t)) lens.now },
}

impl Pairs<'_> {
    pub(crate) fn measure_tails(&self, lens: &mut [u8; 128])
        requires { lens.old ≡ replicate 128 0 }
        ensures { Lengths self.now.which (shown self.now.t) (seconds self.now.which (shown self.now.t)) lens.new }
    {
        for j in 0..self.count_seconds() {
            lens[j] = self.tail_length(j) as u8;
        }
    }
}

impl Measured<'_> {
    // The lines of the set bits of a word, bit 0 standing for from, where their head has h bytes.
    #[tactic(auto, using(rows::proofs::BitList::below_64))]
    fn word_length(&self, word: u64, from: usize, h: usize) -> usize
        requires { (from + 64 ≤ 128) × (h ≤ 24) }
        ensures { (result ≡ length (bit_lines (blank h self.now.lens.now) 64 from word)) × (result ≤ 2048) }
    {
        let mut sum = 0;
        for j in bits(word) {
            sum += h + usize::from(self.lens[from + j]);
        }
        sum
    }

    // The lines of access i.
    #[tactic(auto, using(table::proofs::Bounds::few_accesses_lem))]
    fn row_length(&self, i: usize) -> usize
        requires { i < self.now.pairs.t.accesses }
        ensures { (result ≡ length (lines (pair_line self.now.pairs.which (shown self.now.pairs.t)) (row_of (get_or self.now.pairs.rows.now.low i 0) (get_or self.now.pairs.rows.now.high i 0) i))) × (result ≤ 4096) }
    {
        let pairs = &self.pairs;
        let low = pairs.rows.low[i];
        let high = pairs.rows.high[i];
        if count_row(low, high) == 0 {
            return 0;
        }
        let h = pairs.head_length(i);
        self.word_length(low, 0, h) + self.word_length(high, 64, h)
    }

    // The lines of all accesses.
    #[tactic(auto, using(table::proofs::Bounds::few_accesses_lem))]
    pub(crate) fn rows_length(&self) -> usize
        ensures { (result ≡ length (lines (pair_line self.now.pairs.which (shown self.now.pairs.t)) (rows_of self.now.pairs.rows.now.low self.now.pairs.rows.now.high self.now.pairs.t.accesses))) × (result ≤ 524288) }
    {
        let mut sum = 0;
        for i in 0..usize::from(self.pairs.t.accesses) {
            sum += self.row_length(i);
        }
        sum
    }
}
