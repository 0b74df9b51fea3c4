// Priorities and thresholds, written into a lent buffer.
#![tactic(auto)]

mod numbering;

ghost use Rattle.std.specs.Prelude.{◌≡◌, ◌<◌};
ghost use Rattle.rules.specs.Priorities.{has_thresholds};
ghost use Rattle.rules.specs.Calls.{thresholds_call};
ghost use Rattle.table.specs.Answers.{shown, left};
ghost use Rattle.priorities.specs.Answers.{numbered_call};
ghost use Rattle.priorities.specs.Numbering.{may_have};

use crate::numbering::{blank, number_node};
use table::{Checked, Fault, NodeKind, Refusal, Table};

// What thresholds ask of node n: it is not of kind 4, and no scheduler under kind 2 or 3.
fn may_have(t: &Table<'_>, n: usize) -> bool
    requires { n < 256 }
    ensures { result ≡ may_have (shown t.now).tree n }
{
    match t.kind(n) {
        NodeKind::TimeSliced => false,
        NodeKind::Task => true,
        _ => n == 0 || matches!(t.kind(t.parent(n)), NodeKind::Preemptive),
    }
}

fn has_thresholds(t: &Table<'_>) -> bool
    ensures { result ≡ has_thresholds (shown t.now).tree }
{
    (0..usize::from(t.nodes)).all(|n| may_have(t, n))
}

// The call, once the table has been read.
fn number(t: &Checked<'_>, out: &mut [u8]) -> Result<usize, Fault>
    ensures { left result out.new ≡ numbered_call (shown t.now.table) out.old }
{
    let has = has_thresholds(&t.table);
    let count = usize::from(t.table.nodes);
    let need = count * 2;
    let fits = need <= out.len();
    if !has {
        return Err(Refusal::NoThresholds.at(0));
    }
    if !fits {
        return Err(Refusal::Room.at(need));
    }
    blank(out, count);
    number_node(&t.table, out, 0, 0);
    Ok(need)
}

pub fn thresholds(bytes: &[u8], out: &mut [u8]) -> Result<usize, Fault>
    ensures { left result out.new ≡ thresholds_call bytes.now out.old }
{
    let t = Table::read(bytes)?;
    number(&t, out)
}
