// The walk that numbers the tasks: numbering a node calls numbering its child list, which calls numbering a node. A child has a greater
// number than its parent, so fewer nodes remain at each call.
ghost use Rattle.std.specs.Prelude.{◌≡◌, ◌++◌, ◌+◌, ◌*◌, ◌<◌, ◌≤◌, length, drop, set};
ghost use Rattle.rules.specs.Table.{preemptive, non_preemptive, fifo};
ghost use Rattle.rules.specs.Priorities as walks;
ghost use Rattle.rules.specs.Priorities.{unwalked};
ghost use Rattle.table.specs.Answers.{shown};
ghost use Rattle.priorities.specs.Numbering.{Ready, Visited};

use table::{NodeKind, Table};

// The table, the buffer, a node and the counter go from call to call. A struct of them would hold a `&mut` that each call lends on, and be no
// plainer.

// Every node shows 255, 255.
pub(crate) fn blank(out: &mut [u8], count: usize)
    requires { (count ≤ 128) × (count * 2 ≤ length out.old) }
    ensures { out.new ≡ walks.shown unwalked count ++ drop (count * 2) out.old }
{
    out[..count * 2].fill(255);
}

// Node n shows priority p and threshold h.
fn give(out: &mut [u8], n: usize, p: usize, h: usize)
    requires { (n < 128) × (n * 2 + 2 ≤ length out.old) × (p < 256) × (h < 256) }
    ensures { out.new ≡ set (set out.old (n * 2) p) (n * 2 + 1) h }
{
    out[n * 2] = p as u8;
    out[n * 2 + 1] = h as u8;
}

// Numbers node n and all below it from c on, and gives the next number.
#[cycle(walk)]
pub(crate) fn number_node(t: &Table<'_>, out: &mut [u8], n: usize, c: usize) -> usize
    requires { Ready (shown t.now).tree out.old n c }
    ensures { Visited (shown t.now).tree n out.old c out.new result }
{
    match t.kind(n) {
        NodeKind::Task => {
            give(out, n, c, c);
            c + 1
        }
        NodeKind::Preemptive => number_children(t, out, n, c),
        NodeKind::NonPreemptive => number_non_preemptive(t, out, n, c),
        _ => number_fifo(t, out, n, c),
    }
}

// Each of the three kinds gives its children their numbers in a way of its own; one loop for all would take a closure that changes the counter
// and the buffer, and be no plainer.

// Kind 1: the children, one after the other.
#[cycle(walk)]
fn number_children(t: &Table<'_>, out: &mut [u8], p: usize, c: usize) -> usize
    requires ready { Ready (shown t.now).tree out.old p c }
    requires of_kind { (shown t.now).tree.kind p ≡ preemptive }
    ensures { Visited (shown t.now).tree p out.old c out.new result }
{
    let mut next = c;
    for j in p + 1..usize::from(t.nodes) {
        if t.is_child(p, j) {
            next = number_node(t, out, j, next);
        }
    }
    next
}

// Kind 2: consecutive priorities, and the first of them is the threshold of each.
fn number_non_preemptive(t: &Table<'_>, out: &mut [u8], p: usize, c: usize) -> usize
    requires ready { Ready (shown t.now).tree out.old p c }
    requires of_kind { (shown t.now).tree.kind p ≡ non_preemptive }
    ensures { Visited (shown t.now).tree p out.old c out.new result }
{
    let mut next = c;
    for j in p + 1..usize::from(t.nodes) {
        if t.is_child(p, j) {
            give(out, j, next, c);
            next += 1;
        }
    }
    next
}

// FIFO: one number for all; the counter moves on once if there was a task.
fn number_fifo(t: &Table<'_>, out: &mut [u8], p: usize, c: usize) -> usize
    requires ready { Ready (shown t.now).tree out.old p c }
    requires of_kind { (shown t.now).tree.kind p ≡ fifo }
    ensures { Visited (shown t.now).tree p out.old c out.new result }
{
    let mut moved = false;
    for j in p + 1..usize::from(t.nodes) {
        if t.is_child(p, j) {
            give(out, j, c, c);
            moved = true;
        }
    }
    c + usize::from(moved)
}
