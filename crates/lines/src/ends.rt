// The two ends of a line: the head that all lines of an access share, and the tail that all lines with an access, or a lock, share.
ghost use Rattle.std.specs.Prelude.{◌≡◌, ◌<◌, ◌≤◌, length};
ghost use Rattle.table.specs.Answers.{shown};
ghost use Rattle.rows.specs.Writing.{Wrote};
ghost use Rattle.text.specs.Writes.{Writes};
ghost use Rattle.lines.specs.Lines.{head_of, tail_of, seconds, Tails};
ghost use Rattle.lines.specs.OneProof.{tails_prop};

use crate::measure::Measured;
use crate::{Pairs, Section};
use text::{Pen, digits};

impl Pairs<'_> {
    #[tactic(auto, using(crate::proofs::LineEnds::race_head_length, crate::proofs::LineEnds::illegal_head_length))]
    pub(crate) fn head_length(&self, i: usize) -> usize
        requires { i < 128 }
        ensures { (result ≡ length (head_of self.now.which (shown self.now.t) i)) × (result ≤ 24) }
    {
        match self.which {
            Section::Races => {
                let label = self.t.label(self.t.resource_of(i));
                8 + digits(label) + digits(i) + digits(self.t.task_of(i))
            }
            Section::Illegals => 10 + digits(i) + digits(self.t.task_of(i)),
        }
    }

    pub(crate) fn put_head(&self, i: usize, head: &mut [u8; 24]) -> usize
        requires { (i < 128) × (length head.old ≡ 24) }
        ensures { Wrote head.old 0 (head_of self.now.which (shown self.now.t) i) head.new result × (8 ≤ result) × (result ≤ 24) }
    {
        let mut pen = Pen::new(head, 0);
        match self.which {
            Section::Races => {
                let label = self.t.label(self.t.resource_of(i));
                pen.part(b"race", &[label, i, self.t.task_of(i)]);
            }
            Section::Illegals => pen.part(b"illegal", &[i, self.t.task_of(i)]),
        }
        pen.put(b' ');
        pen.at
    }

    #[tactic(auto, using(crate::proofs::LineEnds::race_tail_length, crate::proofs::LineEnds::race_tail_few, crate::proofs::LineEnds::illegal_tail_length))]
    pub(crate) fn tail_length(&self, j: usize) -> usize
        requires { j < 128 }
        ensures { (result ≡ length (tail_of self.now.which (shown self.now.t) j)) × (result ≤ 8) }
    {
        match self.which {
            Section::Races => 2 + digits(j) + digits(self.t.task_of(j)),
            Section::Illegals => 1 + digits(j),
        }
    }

    fn put_tail(&self, j: usize, pen: &mut Pen<'_>)
        requires { (pen.old.at ≤ 1024) × (j < 128) }
        ensures { Writes pen.old (tail_of self.now.which (shown self.now.t) j) pen.new }
    {
        pen.number(j);
        match self.which {
            Section::Races => pen.line(b"", &[self.t.task_of(j)]),
            Section::Illegals => pen.put(b'\n'),
        }
    }

    #[tactic(auto, using(table::proofs::Bounds::few_accesses_lem, table::proofs::Bounds::few_locks_lem, table::proofs::Shown::accesses_shown, table::proofs::Shown::locks_shown), unfolding(crate::specs::Lines::seconds))]
    pub(crate) fn count_seconds(&self) -> usize
        ensures { (result ≡ seconds self.now.which (shown self.now.t)) × (result ≤ 128) }
    {
        match self.which {
            Section::Races => usize::from(self.t.accesses),
            Section::Illegals => usize::from(self.t.locks),
        }
    }
}

// The tails of a section, each at the end of its eight bytes. They are lent, as their lengths are.
#[derive(Clone, Copy)]
pub(crate) struct Ends<'a> {
    pub(crate) measured: Measured<'a>,
    pub(crate) tails: &'a [u8; 1024],
    pub(crate) ghost made: { Tails measured.pairs.which (shown measured.pairs.t) (seconds measured.pairs.which (shown measured.pairs.t)) measured.lens.now tails.now } by { tails_prop measured.pairs.which (shown measured.pairs.t) (seconds measured.pairs.which (shown measured.pairs.t)) measured.lens.now tails.now },
}

impl Measured<'_> {
    pub(crate) fn put_tails(&self, tails: &mut [u8; 1024])
        ensures { Tails self.now.pairs.which (shown self.now.pairs.t) (seconds self.now.pairs.which (shown self.now.pairs.t)) self.now.lens.now tails.new }
    {
        for j in 0..self.pairs.count_seconds() {
            let n = usize::from(self.lens[j]);
            self.pairs.put_tail(j, &mut Pen::new(tails, 8 * j + 8 - n));
        }
    }
}
