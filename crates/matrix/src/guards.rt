// The words of the locks: what the holder of a lock is safe from.
ghost use Rattle.std.specs.Prelude.{◌≡◌, cond, ◌<◌, ◌≤◌, eqb, get_or, replicate};
ghost use Rattle.rules.specs.Table.{mask};
ghost use Rattle.table.specs.Answers.{shown};
ghost use Rattle.matrix.specs.Words.{Held, Holders, Masks, Without, Unguarded};

use crate::half::Half;
use crate::single::one;
use rows::set_bits::bits;
use table::{Checked, LockKind};

// The accesses of a word are added to the holders of the locks of a set.
#[tactic(auto, using(rows::proofs::BitList::below_32))]
fn hold(accesses: u64, set: u32, g: &mut [u64; 32])
    ensures { Held accesses set g.old g.new }
{
    for k in bits(u64::from(set)) {
        g[k] |= accesses;
    }
}

impl Half<'_> {
    // The holders of each lock of b. Those that follow one another with the same locks are added together.
    #[tactic(auto, using(table::proofs::Bounds::few_accesses_lem))]
    pub(crate) fn holders(&self, b: u32, g: &mut [u64; 32])
        requires { g.old ≡ replicate 32 0 }
        ensures { Holders (shown self.now.t.table).lock_set self.now.base self.now.count b g.new }
    {
        let mut set = 0;
        let mut waiting = 0;
        for j in 0..self.count {
            let x = self.t.table.access(self.base + j).locks & b;
            if x == set {
                waiting |= one(j);
            } else {
                hold(waiting, set, g);
                set = x;
                waiting = one(j);
            }
        }
        hold(waiting, set, g);
    }
}

// What a holder of lock k is safe from: below the covered node of a mask, or else the holders.
#[tactic(auto, using(table::proofs::KindLaws::mask_is, table::proofs::KindLaws::mask_not, crate::proofs::Guarding::covered_by_mask))]
fn guard(t: &Checked<'_>, k: usize, sub: &[u64; 128], held: u64) -> u64
    requires { k < t.now.table.locks }
    ensures { result ≡ cond (eqb ((shown t.now.table).lock_kind k) mask) (get_or sub.now ((shown t.now.table).covered k) 0) held }
{
    let lock = t.table.lock(k);
    match lock.kind {
        LockKind::Mask => sub[lock.covered],
        _ => held,
    }
}

// The guards of the masks.
#[tactic(auto, using(table::proofs::Bounds::few_locks_lem))]
pub(crate) fn masks(t: &Checked<'_>, sub: &[u64; 128], g: &mut [u64; 32])
    ensures { Masks (shown t.now.table) t.now.table.locks sub.now g.old g.new }
{
    for k in 0..usize::from(t.table.locks) {
        g[k] = guard(t, k, sub, g[k]);
    }
}

fn without(w: u64, v: u64) -> u64
    ensures { Without w v result }
{
    w & !v
}

// The accesses of w from which no lock of the set keeps its holder safe.
#[tactic(auto, using(rows::proofs::BitList::below_32))]
pub(crate) fn unguarded(w0: u64, set: u32, g: &[u64; 32]) -> u64
    ensures { Unguarded g.now w0 set result }
{
    let mut w = w0;
    for k in bits(u64::from(set)) {
        if w == 0 {
            return 0;
        }
        w = without(w, g[k]);
    }
    w
}
