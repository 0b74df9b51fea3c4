// The two sections of the listing: the number of pairs, and then a line for each, stored whole, or the lines of a few accesses at a time for a caller
// with little room.
#![tactic(auto)]

mod ends;
mod measure;
mod storing;

ghost use Rattle.std.specs.Prelude.{◌≡◌, ◌+◌, ◌*◌, ◌≤◌, min, length};
ghost use Rattle.rules.specs.Listing.{section, lines};
ghost use Rattle.rules.specs.Accepted.{Accepted};
ghost use Rattle.table.specs.Answers.{shown};
ghost use Rattle.table.specs.OneProof.{accepted_prop};
ghost use Rattle.rows.specs.Writing.{Wrote, rows_of};
ghost use Rattle.lines.specs.Lines.{pair_line, RowsWithin, rows_from};
ghost use Rattle.lines.specs.OneProof.{rows_prop};

use ends::Ends;
use measure::Measured;
use rows::Rows;
use table::Table;
use text::{Pen, digits};

// What the pairs of a section are: races, or illegal locks.
#[derive(Clone, Copy, Debug, PartialEq, Eq)]
pub enum Section {
    Races,
    Illegals,
}

// The pairs of one section: the races, or the illegal locks, of an accepted table, as rows whose numbers are those of its accesses, or of its
// locks. Whether the table stands whole in its bytes plays no part.
#[derive(Clone, Copy)]
pub struct Pairs<'a> {
    pub which: Section,
    pub t: Table<'a>,
    pub rows: &'a Rows,
    pub ghost accepted: { Accepted (shown t) } by { accepted_prop (shown t) },
    pub ghost within: { RowsWithin which (shown t) rows.now.low rows.now.high } by { rows_prop which (shown t) rows.now.low rows.now.high },
}

impl Pairs<'_> {
    // How many bytes the section takes. The word is the caller's, since the promise is of any short word.
    #[tactic(auto, using(table::proofs::Bounds::few_accesses_lem))]
    pub fn section_length(&self, word: &[u8]) -> usize
        requires { length word.now ≤ 8 }
        ensures { (result ≡ length (section word.now (pair_line self.now.which (shown self.now.t)) (rows_of self.now.rows.now.low self.now.rows.now.high self.now.t.accesses))) × (result ≤ 600000) }
    {
        let count = self.rows.count(usize::from(self.t.accesses));
        let first = word.len() + 2 + digits(count);
        if count == 0 {
            return first;
        }
        let mut lens = [0; 128];
        self.measure_tails(&mut lens);
        let measured = Measured {
            pairs: *self,
            lens: &lens,
        };
        first + measured.rows_length()
    }

    // The lines of the n accesses from `from` on, from byte k on.
    fn put_lines(&self, out: &mut [u8], k: usize, from: usize, n: usize) -> usize
        requires { (from + n ≤ self.now.t.accesses) × (k + min (length (lines (pair_line self.now.which (shown self.now.t)) (rows_from self.now.rows.now.low self.now.rows.now.high from n))) (4096 * n) ≤ length out.old) }
        ensures { Wrote out.old k (lines (pair_line self.now.which (shown self.now.t)) (rows_from self.now.rows.now.low self.now.rows.now.high from n)) out.new result × (result ≤ k + 4096 * n) }
    {
        let mut lens = [0; 128];
        self.measure_tails(&mut lens);
        let measured = Measured {
            pairs: *self,
            lens: &lens,
        };
        let mut tails = [0; 1024];
        measured.put_tails(&mut tails);
        let ends = Ends {
            measured,
            tails: &tails,
        };
        ends.put_rows(out, k, from, n)
    }

    // The section, from byte k on.
    #[tactic(auto, using(table::proofs::Bounds::few_accesses_lem))]
    pub fn put_section(&self, out: &mut [u8], k: usize, word: &[u8]) -> usize
        requires { (k ≤ 600000) × (length word.now ≤ 8) × (k + length (section word.now (pair_line self.now.which (shown self.now.t)) (rows_of self.now.rows.now.low self.now.rows.now.high self.now.t.accesses)) ≤ length out.old) }
        ensures { Wrote out.old k (section word.now (pair_line self.now.which (shown self.now.t)) (rows_of self.now.rows.now.low self.now.rows.now.high self.now.t.accesses)) out.new result }
    {
        let n = usize::from(self.t.accesses);
        let count = self.rows.count(n);
        let mut pen = Pen::new(out, k);
        pen.line(word, &[count]);
        let w = pen.at;
        if count == 0 {
            return w;
        }
        self.put_lines(out, w, 0, n)
    }

    // The lines of the n accesses from `from` on: 4,096 bytes are room for those of any access.
    pub fn put_some(&self, out: &mut [u8], from: usize, n: usize) -> usize
        requires { (from + n ≤ self.now.t.accesses) × (4096 * n ≤ length out.old) }
        ensures { Wrote out.old 0 (lines (pair_line self.now.which (shown self.now.t)) (rows_from self.now.rows.now.low self.now.rows.now.high from n)) out.new result × (result ≤ 4096 * n) }
    {
        self.put_lines(out, 0, from, n)
    }
}
