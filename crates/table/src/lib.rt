// Tables, form 1: limits, kinds, refusals, the fields of a record, and the reader. The only room that knows where a byte stands.
#![tactic(auto)]

mod bytes;
mod checked;
mod fields;
mod kinds;
mod records;
mod refusals;
mod sections;
pub mod standing;

ghost use Rattle.std.specs.Prelude.{◌≡◌, IfOk};
ghost use Rattle.rules.specs.Reading.{read};
ghost use Rattle.table.specs.Read.{told};

pub use checked::Checked;
pub use kinds::{LockKind, NodeKind};
pub use refusals::{Fault, Refusal};

// The bytes of a table, and the four counts that say where each of its records stands. Nothing is known of either.
#[derive(Clone, Copy)]
pub struct Table<'a> {
    pub bytes: &'a [u8],
    pub nodes: u8,
    pub locks: u8,
    pub resources: u8,
    pub accesses: u8,
}

impl<'a> Table<'a> {
    pub const FORM: u8 = 1;

    pub const MAX_NODES: u8 = 128;

    pub const MAX_LOCKS: u8 = 32;

    pub const MAX_RESOURCES: u8 = 64;

    pub const MAX_ACCESSES: u8 = 128;

    pub const TASK: u8 = 0;

    pub const PREEMPTIVE: u8 = 1;

    pub const NON_PREEMPTIVE: u8 = 2;

    pub const FIFO: u8 = 3;

    pub const TIME_SLICED: u8 = 4;

    pub const BLOCKING: u8 = 0;

    pub const MASK: u8 = 1;

    // The table that the bytes are, or their first fault.
    pub fn read(bytes: &'a [u8]) -> Result<Checked<'a>, Fault>
        ensures table { told result ≡ read bytes.now }
        ensures lent { IfOk result (λ t. t.table.bytes ≡ bytes.entry) }
    {
        let table = Table::counted(bytes);
        table.form_section()?;
        table.node_section()?;
        table.lock_section()?;
        table.resource_section()?;
        table.access_section()?;
        table.end_section()?;
        Ok(Checked { table })
    }
}
