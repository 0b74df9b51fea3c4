// Whole records of a table that stands in its bytes from the first to the last: no byte is tested against the end. They ask for no more than
// that it stands, so that they serve any table that does, accepted or not.
ghost use Rattle.std.specs.Prelude.{◌≡◌, ◌<◌};
ghost use Rattle.table.specs.Answers.{shown, Stands};
ghost use Rattle.table.specs.Kinds.{node_kind, lock_kind};

use crate::{LockKind, NodeKind, Table};

#[derive(Clone, Copy)]
pub struct Node {
    pub parent: usize,
    pub kind: NodeKind,
}

#[derive(Clone, Copy)]
pub struct Lock {
    pub provider: usize,
    pub kind: LockKind,
    pub covered: usize,
}

#[derive(Clone, Copy)]
pub struct Access {
    pub task: usize,
    pub resource: usize,
    pub locks: u32,
}

impl Table<'_> {
    pub fn node(&self, n: usize) -> Node
        requires { (n < self.now.nodes) × (Stands self.now) }
        ensures { (result.parent ≡ (shown self.now).tree.parent n) × (result.kind ≡ node_kind ((shown self.now).tree.kind n)) }
    {
        let at = 2 + n * 2;
        Node {
            parent: usize::from(self.bytes[at]),
            kind: self.bytes[at + 1].into(),
        }
    }

    pub fn lock(&self, k: usize) -> Lock
        requires { (k < self.now.locks) × (Stands self.now) }
        ensures { (result.provider ≡ (shown self.now).provider k) × (result.kind ≡ lock_kind ((shown self.now).lock_kind k)) × (result.covered ≡ (shown self.now).covered k) }
    {
        let at = self.lock_at(k);
        Lock {
            provider: usize::from(self.bytes[at]),
            kind: self.bytes[at + 1].into(),
            covered: usize::from(self.bytes[at + 2]),
        }
    }

    pub fn access(&self, i: usize) -> Access
        requires { (i < self.now.accesses) × (Stands self.now) }
        ensures { (result.task ≡ (shown self.now).task_of i) × (result.resource ≡ (shown self.now).resource_of i) × (result.locks ≡ (shown self.now).lock_set i) }
    {
        let at = self.access_at(i);
        Access {
            task: usize::from(self.bytes[at]),
            resource: usize::from(self.bytes[at + 1]),
            locks: u32::from_be_bytes([
                self.bytes[at + 2],
                self.bytes[at + 3],
                self.bytes[at + 4],
                self.bytes[at + 5],
            ]),
        }
    }
}
