// Taking the processor: one pass over the other tasks, which must all yield it, and whose locks are gathered on the way.
ghost use Rattle.std.specs.Prelude.{◌≡◌, ◌<◌, ◌≤◌};
ghost use Rattle.std.specs.Int.Bits.{bit_or};
ghost use Rattle.rules.specs.Machine.{may_take};
ghost use Rattle.table.specs.Answers.{shown};
ghost use Rattle.machine.specs.OtherTasks.{yields, adds, held_by_others, leaves};
ghost use Rattle.machine.specs.Places.{byte_of};

use crate::places::{Place, held};
use locks::masked;
use table::{Checked, Table};
use tree::may_preempt;

// Tasks that all yield to x and hold these locks, and one more: task u, by its place. None where it keeps the processor.
#[tactic(auto, unfolding(crate::specs::Places::byte_of, rules::specs::Machine::held, crate::specs::OtherTasks::leaves))]
fn one_more(t: &Table<'_>, x: usize, locks: u32, u: usize, place: Place) -> Option<u32>
    requires { (t.now.locks ≤ 32) × (x < 256) }
    ensures { result ≡ leaves (yields (shown t.now) x u (byte_of place)) (bit_or locks (adds (shown t.now) x u (byte_of place))) }
{
    if u == x {
        return Some(locks);
    }
    if let Place::Idle = place {
        return Some(locks);
    }
    if !may_preempt(t, x, u) {
        return None;
    }
    let set = held(t, place);
    if masked(t, set, x) {
        return None;
    }
    Some(locks | set)
}

// What the others leave to task x: the locks that they hold together, or None where one of them keeps the processor.
#[tactic(auto, using(table::proofs::Bounds::few_nodes, table::proofs::Bounds::few_locks_lem))]
pub(crate) fn pass(t: &Checked<'_>, p: &[u8; 128], x: usize) -> Option<u32>
    requires { x < t.now.table.nodes }
    ensures { result ≡ leaves (may_take (shown t.now.table) p.now x) (held_by_others (shown t.now.table) p.now x) }
{
    let mut locks = 0;
    for u in 0..usize::from(t.table.nodes) {
        let place = Place::from(p[u]);
        locks = one_more(&t.table, x, locks, u, place)?;
    }
    Some(locks)
}
