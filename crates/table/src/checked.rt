// A table that keeps every rule of a table, and that stands in its bytes whole.
ghost use Rattle.rules.specs.Accepted.{Accepted};
ghost use Rattle.table.specs.Answers.{shown, Stands};
ghost use Rattle.table.specs.OneProof.{accepted_prop};

use crate::Table;

#[derive(Clone, Copy)]
pub struct Checked<'a> {
    pub table: Table<'a>,
    pub ghost accepted: { Accepted (shown table) } by { accepted_prop (shown table) },
    pub ghost stands: { Stands table },
}
