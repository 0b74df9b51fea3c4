// Preemption: the climbs from a node to its parents, and what the nearest common scheduler of two tasks allows.
#![tactic(auto)]

ghost use Rattle.std.specs.Prelude.{◌≡◌, ◌<◌};
ghost use Rattle.rules.specs.Preemption.{at_or_below, is_ancestor, nearest_common, child_above, allows, may_preempt};
ghost use Rattle.rules.specs.Calls.{preempts_call};
ghost use Rattle.table.specs.Answers.{shown};
ghost use Rattle.tree.specs.Answers.{answered};

use table::{Fault, NodeKind, Table};

// A climb counts nothing: each turn goes on from the parent, so no range or chain says it plainer.

// Node n is a, or lies below it.
pub fn at_or_below(t: &Table<'_>, n: usize, a: usize) -> bool
    requires { n < 256 }
    ensures { result ≡ at_or_below (shown t.now).tree n a }
{
    let mut at = n;
    while at != a {
        let p = t.parent(at);
        if at <= p {
            return false;
        }
        at = p;
    }
    true
}

#[tactic(auto, unfolding(rules::specs::Preemption::is_ancestor))]
pub fn is_ancestor(t: &Table<'_>, a: usize, n: usize) -> bool
    requires { n < 256 }
    ensures { result ≡ is_ancestor (shown t.now).tree a n }
{
    n != a && at_or_below(t, n, a)
}

// The nearest common scheduler of the tasks x and u.
pub fn nearest_common(t: &Table<'_>, x: usize, u: usize) -> usize
    requires { (x < 256) × (u < 256) }
    ensures { (result ≡ nearest_common (shown t.now).tree x u) × (result < 256) }
{
    let mut at = u;
    loop {
        let p = t.parent(at);
        if at <= p {
            return 0;
        }
        if at_or_below(t, x, p) {
            return p;
        }
        at = p;
    }
}

// The child of p that is above or equal to n.
pub fn child_above(t: &Table<'_>, p: usize, n: usize) -> usize
    requires { n < 256 }
    ensures { (result ≡ child_above (shown t.now).tree p n) × (result < 256) }
{
    let mut at = n;
    loop {
        let q = t.parent(at);
        if at <= q || q == p {
            return at;
        }
        at = q;
    }
}

// Scheduler p lets its child a preempt its child b.
#[tactic(auto, using(crate::proofs::Allowed::time_sliced_allows, crate::proofs::Allowed::preemptive_allows, crate::proofs::Allowed::others_allow))]
fn scheduler_allows(t: &Table<'_>, p: usize, a: usize, b: usize) -> bool
    requires { p < 256 }
    ensures { result ≡ allows (shown t.now).tree p a b }
{
    match t.kind(p) {
        NodeKind::TimeSliced => true,
        NodeKind::Preemptive => a < b,
        _ => false,
    }
}

// Task x may preempt task u.
#[tactic(auto, unfolding(rules::specs::Preemption::may_preempt))]
pub fn may_preempt(t: &Table<'_>, x: usize, u: usize) -> bool
    ensures { result ≡ may_preempt (shown t.now).tree x u }
{
    if !t.is_task(x) || !t.is_task(u) || x == u {
        return false;
    }
    let p = nearest_common(t, x, u);
    let a = child_above(t, p, x);
    let b = child_above(t, p, u);
    scheduler_allows(t, p, a, b)
}

// The call: may task x preempt task u of the table that the bytes are?
#[tactic(auto, using(table::proofs::Told::told_table), unfolding(crate::specs::Answers::answered, rules::specs::Calls::preempts_call, rules::specs::Calls::reading))]
pub fn preempts(bytes: &[u8], x: usize, u: usize) -> Result<bool, Fault>
    ensures { answered result ≡ preempts_call bytes.now x u }
{
    Ok(may_preempt(&Table::read(bytes)?.table, x, u))
}
