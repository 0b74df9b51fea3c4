// The words of the nodes: what is at or below each, and what may preempt what is at or below it.
ghost use Rattle.std.specs.Prelude.{◌≡◌, ℕ, ◌<◌, replicate};
ghost use Rattle.table.specs.Answers.{shown};
ghost use Rattle.table.specs.Kinds.{node_kind};
ghost use Rattle.matrix.specs.Words.{Gathered, Preempted, SteppedDown};

use table::{Checked, NodeKind};

// The parent of a node that is not the root.
#[tactic(auto, using(table::proofs::Bounds::parent_low, table::proofs::Bounds::few_nodes))]
pub(crate) fn parent_of(t: &Checked<'_>, c: usize) -> usize
    requires { (0 < c) × (c < t.now.table.nodes) }
    ensures { (result ≡ (shown t.now.table).tree.parent c) × (result < c) × (c < 128) }
{
    t.table.node(c).parent
}

// Each node's word goes to its parent, from the last node to the second.
pub(crate) fn gather_up(t: &Checked<'_>, m: &mut [u64; 128])
    ensures { Gathered (shown t.now.table).tree m.old m.new }
{
    for c in (1..usize::from(t.table.nodes)).rev() {
        let p = parent_of(t, c);
        m[p] |= m[c];
    }
}

// What may preempt a child of a scheduler of this kind. over: what may preempt the scheduler; higher: what is below higher siblings; all: what
// is below the scheduler; own: what is below the child.
fn step_down(kind: NodeKind, over: u64, higher: u64, all: u64, own: u64) -> u64
    ensures { (k : ℕ) → kind ≡ node_kind k → SteppedDown k over higher all own result }
{
    match kind {
        NodeKind::Preemptive => over | higher,
        NodeKind::TimeSliced => over | (all & !own),
        _ => over,
    }
}

// What may preempt what is at or below each node, from the root down.
pub(crate) fn preemptors(t: &Checked<'_>, sub: &[u64; 128], pre: &mut [u64; 128])
    requires { pre.old ≡ replicate 128 0 }
    ensures { Preempted (shown t.now.table).tree sub.now pre.new }
{
    let mut seen = [0; 128];
    for c in 1..usize::from(t.table.nodes) {
        let p = parent_of(t, c);
        let kind = t.table.node(p).kind;
        let higher = seen[p];
        let own = sub[c];
        pre[c] = step_down(kind, pre[p], higher, sub[p], own);
        seen[p] = higher | own;
    }
}
