// Half of the accesses of a table: up to 64 that follow one another, one for each bit of a word.
ghost use Rattle.std.specs.Prelude.{◌+◌, ◌≤◌};

use table::Checked;

#[derive(Clone, Copy)]
pub(crate) struct Half<'a> {
    pub t: Checked<'a>,
    pub base: usize,
    pub count: usize,
    pub ghost fits: { (count ≤ 64) × (base + count ≤ t.table.accesses) },
}
