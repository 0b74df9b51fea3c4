// The lines of rows of words, where there is room for them. A pen would test each byte against the end, where the room is
// proved, and be no plainer than a place.
ghost use Rattle.std.specs.Prelude.{◌≡◌, ◌+◌, ◌*◌, ◌<◌, ◌≤◌, min, length, get_or};
ghost use Rattle.rules.specs.Listing.{lines};
ghost use Rattle.table.specs.Answers.{shown};
ghost use Rattle.rows.specs.Writing.{Wrote, row_of};
ghost use Rattle.lines.specs.Lines.{pair_line, bit_lines, line_at, rows_from};

use crate::ends::Ends;
use rows::set_bits::bits;
use rows::writing::count_row;
use store::store_line;

impl Ends<'_> {
    // The lines of the set bits of a word, bit 0 standing for from.
    #[tactic(auto, using(rows::proofs::BitList::below_64))]
    fn put_bits(&self, out: &mut [u8], k: usize, word: u64, from: usize, head: &[u8]) -> usize
        requires { (from + 64 ≤ 128) × (8 ≤ length head.now) × (length head.now ≤ 24) × (k + length (bit_lines (line_at head.now self.now.measured.lens.now self.now.tails.now) 64 from word) ≤ length out.old) }
        ensures { Wrote out.old k (bit_lines (line_at head.now self.now.measured.lens.now self.now.tails.now) 64 from word) out.new result }
    {
        let mut w = k;
        for bit in bits(word) {
            let j = from + bit;
            let n = usize::from(self.measured.lens[j]);
            w = store_line(out, w, head, self.tails, 8 * j, n);
        }
        w
    }

    // The lines of access i, which 4,096 bytes are room for.
    #[tactic(auto, using(table::proofs::Bounds::few_accesses_lem))]
    fn put_row(&self, out: &mut [u8], k: usize, i: usize) -> usize
        requires { (i < self.now.measured.pairs.t.accesses) × (k + min (length (lines (pair_line self.now.measured.pairs.which (shown self.now.measured.pairs.t)) (row_of (get_or self.now.measured.pairs.rows.now.low i 0) (get_or self.now.measured.pairs.rows.now.high i 0) i))) 4096 ≤ length out.old) }
        ensures { Wrote out.old k (lines (pair_line self.now.measured.pairs.which (shown self.now.measured.pairs.t)) (row_of (get_or self.now.measured.pairs.rows.now.low i 0) (get_or self.now.measured.pairs.rows.now.high i 0) i)) out.new result × (result ≤ k + 4096) }
    {
        let pairs = &self.measured.pairs;
        let low = pairs.rows.low[i];
        let high = pairs.rows.high[i];
        if count_row(low, high) == 0 {
            return k;
        }
        let mut head = [0; 24];
        let h = pairs.put_head(i, &mut head);
        let head = &head[..h];
        let w = self.put_bits(out, k, low, 0, head);
        self.put_bits(out, w, high, 64, head)
    }

    // The lines of the n accesses from `from` on.
    #[tactic(auto, using(table::proofs::Bounds::few_accesses_lem))]
    pub(crate) fn put_rows(&self, out: &mut [u8], k: usize, from: usize, n: usize) -> usize
        requires { (from + n ≤ self.now.measured.pairs.t.accesses) × (k + min (length (lines (pair_line self.now.measured.pairs.which (shown self.now.measured.pairs.t)) (rows_from self.now.measured.pairs.rows.now.low self.now.measured.pairs.rows.now.high from n))) (4096 * n) ≤ length out.old) }
        ensures { Wrote out.old k (lines (pair_line self.now.measured.pairs.which (shown self.now.measured.pairs.t)) (rows_from self.now.measured.pairs.rows.now.low self.now.measured.pairs.rows.now.high from n)) out.new result × (result ≤ k + 4096 * n) }
    {
        let mut w = k;
        for i in 0..n {
            w = self.put_row(out, w, from + i);
        }
        w
    }
}
