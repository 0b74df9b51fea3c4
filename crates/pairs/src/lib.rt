// The tests of one pair: two accesses race, a lock is illegal for an access.
#![tactic(auto)]

ghost use Rattle.std.specs.Prelude.{◌≡◌, ◌<◌, ◌≤◌};
ghost use Rattle.rules.specs.Races.{race, illegal};
ghost use Rattle.table.specs.Answers.{shown};

use locks::{blocked, in_set, masked};
use table::{LockKind, Table};
use tree::{is_ancestor, may_preempt};

// The pair of accesses (i, j) is a race.
#[tactic(auto, unfolding(rules::specs::Races::race))]
pub fn is_race(t: &Table<'_>, i: usize, j: usize) -> bool
    requires { (i < 256) × (j < 256) × (t.now.locks ≤ 32) }
    ensures { result ≡ race (shown t.now) i j }
{
    let x = t.task_of(i);
    let y = t.task_of(j);
    x != y
        && t.resource_of(i) == t.resource_of(j)
        && may_preempt(t, y, x)
        && !masked(t, t.lock_set(i), y)
        && !blocked(t, t.lock_set(i), t.lock_set(j))
}

// Access i and lock k are illegal.
#[tactic(auto, using(table::proofs::KindLaws::blocking_is, table::proofs::KindLaws::blocking_not), unfolding(rules::specs::Races::illegal))]
pub fn is_illegal(t: &Table<'_>, i: usize, k: usize) -> bool
    requires { (i < 256) × (k < 32) }
    ensures { result ≡ illegal (shown t.now) i k }
{
    in_set(k, t.lock_set(i))
        && matches!(t.lock_kind(k), LockKind::Blocking)
        && !is_ancestor(t, t.provider(k), t.task_of(i))
}
