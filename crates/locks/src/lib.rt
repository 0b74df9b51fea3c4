// Lock sets: is a lock in a set, does a mask of it cover a task, do two sets share a blocking lock. The only room that knows lock sets as bits.
// The tests of sets take any table of at most 32 locks, accepted or not, and may not ask more.
#![tactic(auto)]

ghost use Rattle.std.specs.Prelude.{◌≡◌, ◌&&◌, ◌<◌, ◌≤◌, eqb};
ghost use Rattle.rules.specs.Table.{blocking};
ghost use Rattle.rules.specs.Locks.{in_set, covers, masked, blocked};
ghost use Rattle.table.specs.Answers.{shown};

use table::{LockKind, Table};
use tree::at_or_below;

// Lock k is in the set.
#[tactic(auto, unfolding(rules::specs::Locks::in_set))]
pub fn in_set(k: usize, set: u32) -> bool
    requires { k < 32 }
    ensures { result ≡ in_set k set }
{
    (set >> k) % 2 == 1
}

// Lock k is a mask that covers task x.
#[tactic(auto, using(crate::proofs::ByKind::mask_covers, crate::proofs::ByKind::others_cover))]
fn mask_covers(t: &Table<'_>, k: usize, x: usize) -> bool
    requires { (k < 256) × (x < 256) }
    ensures { result ≡ covers (shown t.now) k x }
{
    match t.lock_kind(k) {
        LockKind::Mask => at_or_below(t, x, t.covered(k)),
        _ => false,
    }
}

// Lock k is in both sets, and is blocking.
#[tactic(auto, using(table::proofs::KindLaws::blocking_is, table::proofs::KindLaws::blocking_not))]
fn blocks_both(t: &Table<'_>, a: u32, b: u32, k: usize) -> bool
    requires { k < 32 }
    ensures { result ≡ (in_set k a && in_set k b && eqb ((shown t.now).lock_kind k) blocking) }
{
    in_set(k, a) && in_set(k, b) && matches!(t.lock_kind(k), LockKind::Blocking)
}

// Some mask in the set covers task x.
pub fn masked(t: &Table<'_>, set: u32, x: usize) -> bool
    requires { (t.now.locks ≤ 32) × (x < 256) }
    ensures { result ≡ masked (shown t.now) set x }
{
    (0..usize::from(t.locks)).any(|k| in_set(k, set) && mask_covers(t, k, x))
}

// Some blocking lock is in both sets.
pub fn blocked(t: &Table<'_>, a: u32, b: u32) -> bool
    requires { t.now.locks ≤ 32 }
    ensures { result ≡ blocked (shown t.now) a b }
{
    (0..usize::from(t.locks)).any(|k| blocks_both(t, a, b, k))
}
