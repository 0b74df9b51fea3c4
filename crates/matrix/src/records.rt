// The fields of a checked table within their limits, and the words that are made from one record after the other.
ghost use Rattle.std.specs.Prelude.{◌≡◌, ◌<◌, ◌≤◌, eqb, replicate};
ghost use Rattle.rules.specs.Table.{blocking};
ghost use Rattle.table.specs.Answers.{shown};
ghost use Rattle.matrix.specs.Words.{Marked, Blocking, add_lock};

use crate::half::Half;
use crate::single::one;
use table::standing::Access;
use table::{Checked, LockKind};

// Access i: its task is a node, and its resource one of the 64.
#[tactic(auto, using(table::proofs::Bounds::task_low, table::proofs::Bounds::resource_low, table::proofs::Bounds::few_nodes))]
pub(crate) fn access_at(t: &Checked<'_>, i: usize) -> Access
    requires { i < t.now.table.accesses }
    ensures { (result.task ≡ (shown t.now.table).task_of i) × (result.task < t.now.table.nodes) × (t.now.table.nodes ≤ 128) × (result.resource ≡ (shown t.now.table).resource_of i) × (result.resource < 64) × (result.locks ≡ (shown t.now.table).lock_set i) }
{
    t.table.access(i)
}

// The provider of lock k.
#[tactic(auto, using(table::proofs::Bounds::provider_low))]
pub(crate) fn provider_at(t: &Checked<'_>, k: usize) -> usize
    requires { k < t.now.table.locks }
    ensures { (result ≡ (shown t.now.table).provider k) × (result < 128) }
{
    t.table.lock(k).provider
}

// The set b, and lock k where it is blocking.
#[tactic(auto, using(table::proofs::KindLaws::blocking_is, table::proofs::KindLaws::blocking_not, crate::proofs::Marking::one_lock), unfolding(crate::specs::Words::add_lock))]
fn add_lock(t: &Checked<'_>, k: usize, b: u32) -> u32
    requires { (k < 32) × (k < t.now.table.locks) }
    ensures { result ≡ add_lock (eqb ((shown t.now.table).lock_kind k) blocking) k b }
{
    match t.table.lock(k).kind {
        LockKind::Blocking => b | 1 << k,
        _ => b,
    }
}

// The blocking locks of the table.
#[tactic(auto, using(table::proofs::Bounds::few_locks_lem))]
pub(crate) fn blocking_locks(t: &Checked<'_>) -> u32
    ensures { Blocking (shown t.now.table) t.now.table.locks result }
{
    let mut b = 0;
    for k in 0..usize::from(t.table.locks) {
        b = add_lock(t, k, b);
    }
    b
}

impl Half<'_> {
    // The accesses of each task and of each resource.
    #[tactic(auto, using(table::proofs::Bounds::few_accesses_lem))]
    pub(crate) fn mark(&self, tasks: &mut [u64; 128], same: &mut [u64; 64])
        requires { (tasks.old ≡ replicate 128 0) × (same.old ≡ replicate 64 0) }
        ensures { (Marked 128 (shown self.now.t.table).task_of self.now.base self.now.count tasks.new) × (Marked 64 (shown self.now.t.table).resource_of self.now.base self.now.count same.new) }
    {
        for j in 0..self.count {
            let a = access_at(&self.t, self.base + j);
            let bit = one(j);
            tasks[a.task] |= bit;
            same[a.resource] |= bit;
        }
    }
}
