// The sections of a table in their order, each its count and then its records. The first fault ends a section.
ghost use Rattle.std.specs.Prelude.{◌≡◌};
ghost use Rattle.rules.specs.Reading.{counts_of, form_section, node_section, lock_section, resource_section, access_section, end_section};
ghost use Rattle.table.specs.Answers.{counts, checked};

use crate::bytes::byte_at;
use crate::records::check_count;
use crate::{Fault, Refusal, Table};

impl<'a> Table<'a> {
    // The counts that stand in the bytes, each where those before it put it; 0 where that is past the end.
    pub(crate) fn counted(bytes: &'a [u8]) -> Table<'a>
        ensures { (counts result ≡ counts_of bytes.now) × (result.bytes ≡ bytes.entry) }
    {
        let mut t = Table {
            bytes,
            nodes: byte_at(bytes, 1),
            locks: 0,
            resources: 0,
            accesses: 0,
        };
        t.locks = byte_at(bytes, t.locks_at());
        t.resources = byte_at(bytes, t.resources_at());
        t.accesses = byte_at(bytes, t.accesses_at());
        t
    }

    #[tactic(auto, using(crate::proofs::FormLaws::form_short, crate::proofs::FormLaws::form_wrong, crate::proofs::FormLaws::form_right), unfolding(crate::specs::Answers::checked, crate::specs::Answers::number, crate::specs::Answers::numbered))]
    pub(crate) fn form_section(&self) -> Result<(), Fault>
        ensures { checked result ≡ form_section self.now.bytes.now }
    {
        if self.bytes.is_empty() {
            return Err(Refusal::Short.at(0));
        }
        if self.bytes[0] != Table::FORM {
            return Err(Refusal::Form.at(0));
        }
        Ok(())
    }

    // The three sections with records to test differ in the test that they call; one for all would take it as a closure, and be no plainer.
    #[inline(never)]
    pub(crate) fn node_section(&self) -> Result<(), Fault>
        ensures { checked result ≡ node_section (counts self.now) self.now.bytes.now }
    {
        check_count(self.bytes, 1, 1, Table::MAX_NODES)?;
        for n in 0..usize::from(self.nodes) {
            self.check_node(n)?;
        }
        Ok(())
    }

    pub(crate) fn lock_section(&self) -> Result<(), Fault>
        ensures { checked result ≡ lock_section (counts self.now) self.now.bytes.now }
    {
        check_count(self.bytes, self.locks_at(), 0, Table::MAX_LOCKS)?;
        for k in 0..usize::from(self.locks) {
            self.check_lock(k)?;
        }
        Ok(())
    }

    // A resource's record has nothing to test, so the section is complete when its last record is.
    pub(crate) fn resource_section(&self) -> Result<(), Fault>
        ensures { checked result ≡ resource_section (counts self.now) self.now.bytes.now }
    {
        check_count(self.bytes, self.resources_at(), 0, Table::MAX_RESOURCES)?;
        if self.bytes.len() < self.accesses_at() {
            return Err(Refusal::Short.at(self.bytes.len()));
        }
        Ok(())
    }

    pub(crate) fn access_section(&self) -> Result<(), Fault>
        ensures { checked result ≡ access_section (counts self.now) self.now.bytes.now }
    {
        check_count(self.bytes, self.accesses_at(), 0, Table::MAX_ACCESSES)?;
        for i in 0..usize::from(self.accesses) {
            self.check_access(i)?;
        }
        Ok(())
    }

    pub(crate) fn end_section(&self) -> Result<(), Fault>
        ensures { checked result ≡ end_section (counts self.now) self.now.bytes.now }
    {
        let end = self.access_at(usize::from(self.accesses));
        if end < self.bytes.len() {
            return Err(Refusal::Leftover.at(end));
        }
        Ok(())
    }
}
