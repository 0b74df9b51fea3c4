// Where each record stands, and one getter for each field. Every other room reaches a field through these.
ghost use Rattle.std.specs.Prelude.{◌≡◌, ◌+◌, ◌*◌, ◌<◌};
ghost use Rattle.rules.specs.Reading.{locks_at, resources_at, accesses_at, lock_at, resource_at, access_at};
ghost use Rattle.table.specs.Answers.{counts, shown};
ghost use Rattle.table.specs.Kinds.{node_kind, lock_kind};

use crate::bytes::{byte_at, number_at, pair_at};
use crate::{LockKind, NodeKind, Table};

// A getter takes any number that a byte can hold; a type of its own for each kind of number would ask more of callers, and may not.
impl Table<'_> {
    pub(crate) fn locks_at(&self) -> usize
        ensures { (result ≡ locks_at self.now.nodes) × (result < 65536) }
    {
        2 + usize::from(self.nodes) * 2
    }

    pub(crate) fn resources_at(&self) -> usize
        ensures { (result ≡ resources_at self.now.nodes self.now.locks) × (result < 65536) }
    {
        self.locks_at() + 1 + usize::from(self.locks) * 3
    }

    pub(crate) fn accesses_at(&self) -> usize
        ensures { (result ≡ accesses_at self.now.nodes self.now.locks self.now.resources) × (result < 65536) }
    {
        self.resources_at() + 1 + usize::from(self.resources) * 2
    }

    pub(crate) fn lock_at(&self, k: usize) -> usize
        requires { k < 256 }
        ensures { (result ≡ lock_at (counts self.now) k) × (result < 65536) }
    {
        self.locks_at() + 1 + k * 3
    }

    pub(crate) fn resource_at(&self, r: usize) -> usize
        requires { r < 256 }
        ensures { (result ≡ resource_at (counts self.now) r) × (result < 65536) }
    {
        self.resources_at() + 1 + r * 2
    }

    pub(crate) fn access_at(&self, i: usize) -> usize
        requires { i < 256 }
        ensures { (result ≡ access_at (counts self.now) i) × (result < 65536) }
    {
        self.accesses_at() + 1 + i * 6
    }

    pub fn parent(&self, n: usize) -> usize
        requires { n < 256 }
        ensures { (result ≡ (shown self.now).tree.parent n) × (result < 256) }
    {
        number_at(self.bytes, 2 + n * 2)
    }

    pub fn kind(&self, n: usize) -> NodeKind
        requires { n < 256 }
        ensures { result ≡ node_kind ((shown self.now).tree.kind n) }
    {
        byte_at(self.bytes, 2 + n * 2 + 1).into()
    }

    pub fn provider(&self, k: usize) -> usize
        requires { k < 256 }
        ensures { (result ≡ (shown self.now).provider k) × (result < 256) }
    {
        number_at(self.bytes, self.lock_at(k))
    }

    pub fn lock_kind(&self, k: usize) -> LockKind
        requires { k < 256 }
        ensures { result ≡ lock_kind ((shown self.now).lock_kind k) }
    {
        byte_at(self.bytes, self.lock_at(k) + 1).into()
    }

    pub fn covered(&self, k: usize) -> usize
        requires { k < 256 }
        ensures { (result ≡ (shown self.now).covered k) × (result < 256) }
    {
        number_at(self.bytes, self.lock_at(k) + 2)
    }

    pub fn label(&self, r: usize) -> usize
        requires { r < 256 }
        ensures { (result ≡ (shown self.now).label r) × (result < 65536) }
    {
        pair_at(self.bytes, self.resource_at(r))
    }

    pub fn task_of(&self, i: usize) -> usize
        requires { i < 256 }
        ensures { (result ≡ (shown self.now).task_of i) × (result < 256) }
    {
        number_at(self.bytes, self.access_at(i))
    }

    pub fn resource_of(&self, i: usize) -> usize
        requires { i < 256 }
        ensures { (result ≡ (shown self.now).resource_of i) × (result < 256) }
    {
        number_at(self.bytes, self.access_at(i) + 1)
    }

    pub fn lock_set(&self, i: usize) -> u32
        requires { i < 256 }
        ensures { result ≡ (shown self.now).lock_set i }
    {
        let at = self.access_at(i) + 2;
        u32::from_be_bytes([
            byte_at(self.bytes, at),
            byte_at(self.bytes, at + 1),
            byte_at(self.bytes, at + 2),
            byte_at(self.bytes, at + 3),
        ])
    }
}
