// The tests of one count and of one record.
ghost use Rattle.std.specs.Prelude.{◌≡◌, ◌^◌, ◌<◌, true, ltb};
ghost use Rattle.rules.specs.Table.{is_task, is_scheduler, is_child};
ghost use Rattle.rules.specs.Reading.{count_check, parent_right, covered_right, node_check, lock_check, access_check};
ghost use Rattle.table.specs.Answers.{counts, shown, checked};

use crate::{Fault, LockKind, NodeKind, Refusal, Table};

// The count at p stands there and lies within its limits.
pub(crate) fn check_count(bytes: &[u8], p: usize, least: u8, most: u8) -> Result<(), Fault>
    requires { p < 65536 }
    ensures { checked result ≡ count_check bytes.now p least most }
{
    if bytes.len() < p + 1 {
        return Err(Refusal::Short.at(bytes.len()));
    }
    let n = bytes[p];
    if n < least || most < n {
        return Err(Refusal::Count.at(p));
    }
    Ok(())
}

// A set has no bit k or above.
pub(crate) fn set_within(set: u32, k: u8) -> bool
    ensures { result ≡ ltb set (2 ^ k) }
{
    32 <= k || set >> k == 0
}

impl Table<'_> {
    pub fn is_task(&self, n: usize) -> bool
        ensures { (result ≡ is_task (shown self.now).tree n) × (result ≡ true → n < 256) }
    {
        n < usize::from(self.nodes) && matches!(self.kind(n), NodeKind::Task)
    }

    pub fn is_scheduler(&self, n: usize) -> bool
        ensures { result ≡ is_scheduler (shown self.now).tree n }
    {
        n < usize::from(self.nodes) && !matches!(self.kind(n), NodeKind::Task)
    }

    #[tactic(auto, unfolding(crate::specs::Answers::shown, rules::specs::Reading::table_at, rules::specs::Table::is_child))]
    pub fn is_child(&self, p: usize, c: usize) -> bool
        ensures { result ≡ is_child (shown self.now).tree p c }
    {
        c != 0 && c < usize::from(self.nodes) && self.parent(c) == p
    }

    // The parent of node n keeps the rules.
    #[tactic(auto, using(crate::proofs::RightLaws::first_right, crate::proofs::RightLaws::under_task, crate::proofs::RightLaws::under_scheduler))]
    fn parent_right(&self, n: usize) -> bool
        requires { n < 256 }
        ensures { result ≡ parent_right (shown self.now).tree n }
    {
        let p = self.parent(n);
        if n == 0 {
            return p == 0;
        }
        match self.kind(p) {
            NodeKind::Task => false,
            _ => p < n,
        }
    }

    // The covered node of lock k keeps the rules.
    fn covered_right(&self, k: usize) -> bool
        requires { k < 256 }
        ensures { result ≡ covered_right (shown self.now) k }
    {
        let c = self.covered(k);
        match self.lock_kind(k) {
            LockKind::Blocking => c == 0,
            _ => self.is_child(self.provider(k), c),
        }
    }

    pub(crate) fn check_node(&self, n: usize) -> Result<(), Fault>
        requires { n < 256 }
        ensures { checked result ≡ node_check (counts self.now) self.now.bytes.now n }
    {
        let at = 2 + n * 2;
        if self.bytes.len() < at + 2 {
            return Err(Refusal::Short.at(self.bytes.len()));
        }
        if !self.parent_right(n) {
            return Err(Refusal::Parent.at(at));
        }
        if let NodeKind::Unlisted(_) = self.kind(n) {
            return Err(Refusal::Kind.at(at + 1));
        }
        Ok(())
    }

    pub(crate) fn check_lock(&self, k: usize) -> Result<(), Fault>
        requires { k < 256 }
        ensures { checked result ≡ lock_check (counts self.now) self.now.bytes.now k }
    {
        let at = self.lock_at(k);
        if self.bytes.len() < at + 3 {
            return Err(Refusal::Short.at(self.bytes.len()));
        }
        if !self.is_scheduler(self.provider(k)) {
            return Err(Refusal::Provider.at(at));
        }
        if let LockKind::Unlisted(_) = self.lock_kind(k) {
            return Err(Refusal::Kind.at(at + 1));
        }
        if !self.covered_right(k) {
            return Err(Refusal::Covered.at(at + 2));
        }
        Ok(())
    }

    pub(crate) fn check_access(&self, i: usize) -> Result<(), Fault>
        requires { i < 256 }
        ensures { checked result ≡ access_check (counts self.now) self.now.bytes.now i }
    {
        let at = self.access_at(i);
        if self.bytes.len() < at + 6 {
            return Err(Refusal::Short.at(self.bytes.len()));
        }
        if !self.is_task(self.task_of(i)) {
            return Err(Refusal::Task.at(at));
        }
        if usize::from(self.resources) <= self.resource_of(i) {
            return Err(Refusal::Resource.at(at + 1));
        }
        if !set_within(self.lock_set(i), self.locks) {
            return Err(Refusal::LockSet.at(at + 2));
        }
        Ok(())
    }
}
