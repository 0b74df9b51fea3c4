// Which locks are illegal for which access, as words: bit k stands for lock k.
ghost use Rattle.std.specs.Prelude.{◌≡◌, replicate};
ghost use Rattle.table.specs.Answers.{shown};
ghost use Rattle.matrix.specs.Matrix.{IllegalRows};
ghost use Rattle.matrix.specs.Words.{Marked, Inherited, NotOver, Unprovided};

use crate::nodes::parent_of;
use crate::records::{access_at, blocking_locks, provider_at};
use rows::Rows;
use table::Checked;

// The locks that each node provides.
#[tactic(auto, using(table::proofs::Bounds::few_locks_lem))]
fn provided(t: &Checked<'_>, m: &mut [u32; 128])
    requires { m.old ≡ replicate 128 0 }
    ensures { Marked 128 (shown t.now.table).provider 0 t.now.table.locks m.new }
{
    for k in 0..usize::from(t.table.locks) {
        let p = provider_at(t, k);
        m[p] |= 1 << k;
    }
}

// Each node takes over its parent's word, from the root down.
fn inherit(t: &Checked<'_>, m: &mut [u32; 128])
    ensures { Inherited (shown t.now.table).tree m.old m.new }
{
    for c in 1..usize::from(t.table.nodes) {
        let p = parent_of(t, c);
        m[c] |= m[p];
    }
}

fn not_over(set: u32, b: u32, over: u32) -> u64
    ensures { NotOver set b over result }
{
    u64::from(set & b & !over)
}

#[tactic(auto, using(table::proofs::Bounds::few_accesses_lem))]
fn unprovided(t: &Checked<'_>, b: u32, over: &[u32; 128], rows: &mut [u64; 128])
    ensures { Unprovided (shown t.now.table) b over.now t.now.table.accesses rows.old rows.new }
{
    for i in 0..usize::from(t.table.accesses) {
        let a = access_at(t, i);
        rows[i] = not_over(a.locks, b, over[a.task]);
    }
}

// The locks that are illegal for each access, in its low word: blocking ones of its set that no node above its task provides.
pub fn illegal_rows(t: &Checked<'_>, rows: &mut Rows)
    ensures { (IllegalRows (shown t.now.table) rows.old.low rows.new.low) × (rows.new.high ≡ rows.old.high) }
{
    // A copy, which no store into the rows can change: its counts are read once.
    let t = &{ *t };
    let b = blocking_locks(t);
    let mut over = [0; 128];
    provided(t, &mut over);
    inherit(t, &mut over);
    unprovided(t, b, &over, &mut rows.low);
}
