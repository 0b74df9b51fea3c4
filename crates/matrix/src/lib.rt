// Which accesses race with which, as rows of words: bit j of a word stands for access j, or 64 + j. What depends on one node, one lock or one
// access alone is worked out once; then a row is a few operations on words.
#![tactic(auto)]

mod guards;
mod half;
pub mod illegal;
mod nodes;
mod records;
mod single;

ghost use Rattle.std.specs.Prelude.{◌≤◌};
ghost use Rattle.table.specs.Answers.{shown};
ghost use Rattle.matrix.specs.Words.{Blocking, Filled, HalfRows};
ghost use Rattle.matrix.specs.Matrix.{RaceRows};

use guards::{masks, unguarded};
use half::Half;
use nodes::{gather_up, preemptors};
use records::{access_at, blocking_locks};
use rows::Rows;
use table::Checked;

// The row of each access: those of its resource that may preempt its task, without those that its locks keep it safe from.
#[tactic(auto, using(table::proofs::Bounds::few_accesses_lem))]
fn fill(t: &Checked<'_>, same: &[u64; 64], pre: &[u64; 128], g: &[u64; 32], rows: &mut [u64; 128])
    ensures { Filled (shown t.now.table) same.now pre.now g.now t.now.table.accesses rows.old rows.new }
{
    for i in 0..usize::from(t.table.accesses) {
        let a = access_at(t, i);
        rows[i] = unguarded(same[a.resource] & pre[a.task], a.locks, g);
    }
}

// The rows of all accesses against those of the half.
fn half_rows(half: &Half<'_>, b: u32, rows: &mut [u64; 128])
    requires { Blocking (shown half.now.t.table) half.now.t.table.locks b }
    ensures { HalfRows (shown half.now.t.table) half.now.base half.now.count rows.old rows.new }
{
    // Lent to what fills them, since an array handed back would be copied, and apart, since each is filled in a pass of its own.
    let mut sub = [0; 128];
    let mut same = [0; 64];
    let mut pre = [0; 128];
    let mut g = [0; 32];
    // A copy, which no store into the lists can change: its counts are read once.
    let half = *half;
    let t = &half.t;
    half.mark(&mut sub, &mut same);
    gather_up(t, &mut sub);
    preemptors(t, &sub, &mut pre);
    half.holders(b, &mut g);
    masks(t, &sub, &mut g);
    fill(t, &same, &pre, &g, rows);
}

// The row of each access: which accesses it races with, 0 to 63 in low and 64 to 127 in high.
#[tactic(auto, using(table::proofs::Bounds::few_accesses_lem))]
pub fn race_rows(t: &Checked<'_>, rows: &mut Rows)
    ensures { RaceRows (shown t.now.table) rows.old.low rows.old.high rows.new.low rows.new.high }
{
    let count = usize::from(t.table.accesses);
    let b = blocking_locks(t);
    if count <= 64 {
        let all = Half {
            t: *t,
            base: 0,
            count,
        };
        half_rows(&all, b, &mut rows.low);
        rows.high[..count].fill(0);
        return;
    }
    let first = Half {
        t: *t,
        base: 0,
        count: 64,
    };
    half_rows(&first, b, &mut rows.low);
    let second = Half {
        t: *t,
        base: 64,
        count: count - 64,
    };
    half_rows(&second, b, &mut rows.high);
}
