// The races and the illegal pairs of a table, two lists, two bytes a pair, into a lent buffer.
#![tactic(auto)]

ghost use Rattle.std.specs.Prelude.{◌≡◌, ◌≤◌, length};
ghost use Rattle.rules.specs.Bounded.{bytes_of};
ghost use Rattle.rules.specs.Races.{races, illegals};
ghost use Rattle.rules.specs.Calls.{writing, races_call, illegal_call};
ghost use Rattle.table.specs.Answers.{shown, left};
ghost use Rattle.rows.specs.Writing.{rows_of};

use matrix::illegal::illegal_rows;
use matrix::race_rows;
use rows::Rows;
use table::{Checked, Fault, Refusal, Table};

// The pairs of the first n rows, where there is room for them. They are counted first, unless every pair of accesses would have room.
#[tactic(auto, using(crate::proofs::ListAnswers::no_room, crate::proofs::ListAnswers::room, crate::proofs::ListAnswers::wide_room, rows::proofs::RowPairs::rows_few))]
fn list(n: usize, rows: &Rows, out: &mut [u8]) -> Result<usize, Fault>
    requires { n ≤ 128 }
    ensures { let pairs = rows_of rows.now.low rows.now.high n in left result out.new ≡ writing (bytes_of pairs) (length pairs) out.old }
{
    if 256 * n <= out.len() {
        return Ok(rows.write(n, out) / 2);
    }
    let count = rows.count(n);
    let need = 2 * count;
    if out.len() < need {
        return Err(Refusal::Room.at(need));
    }
    rows.write(n, out);
    Ok(count)
}

// The two lists differ in the function that finds their rows; one for both would take it as a closure, and be no plainer.

// The races of a table that was read, where there is room for them.
#[tactic(auto, using(table::proofs::Bounds::few_accesses_lem))]
pub fn list_races(t: &Checked<'_>, out: &mut [u8]) -> Result<usize, Fault>
    ensures { left result out.new ≡ writing (bytes_of (races (shown t.now.table))) (length (races (shown t.now.table))) out.old }
{
    let mut rows = Rows::empty();
    race_rows(t, &mut rows);
    list(usize::from(t.table.accesses), &rows, out)
}

// The illegal pairs of a table that was read, where there is room for them.
#[tactic(auto, using(table::proofs::Bounds::few_accesses_lem))]
pub fn list_illegal(t: &Checked<'_>, out: &mut [u8]) -> Result<usize, Fault>
    ensures { left result out.new ≡ writing (bytes_of (illegals (shown t.now.table))) (length (illegals (shown t.now.table))) out.old }
{
    let mut rows = Rows::empty();
    illegal_rows(t, &mut rows);
    list(usize::from(t.table.accesses), &rows, out)
}

// The call: the races of the table that the bytes are.
pub fn races(bytes: &[u8], out: &mut [u8]) -> Result<usize, Fault>
    ensures { left result out.new ≡ races_call bytes.now out.old }
{
    let t = Table::read(bytes)?;
    list_races(&t, out)
}

// The call: the illegal pairs of the table that the bytes are.
pub fn illegal(bytes: &[u8], out: &mut [u8]) -> Result<usize, Fault>
    ensures { left result out.new ≡ illegal_call bytes.now out.old }
{
    let t = Table::read(bytes)?;
    list_illegal(&t, out)
}
