// The findings as text, into a lent buffer.
#![tactic(auto)]

mod refusal;

ghost use Rattle.std.specs.Prelude.{◌≡◌};
ghost use Rattle.rules.specs.Listing.{listing, writing_text, listing_call};
ghost use Rattle.table.specs.Answers.{shown, left};

use crate::refusal::list_refused;
use lines::{Pairs, Section};
use matrix::illegal::illegal_rows;
use matrix::race_rows;
use rows::Rows;
use table::{Checked, Fault, Refusal, Table};

// The listing of a table that was read: first the room that it takes, from the lengths alone, and then the text.
fn list_table(t: &Checked<'_>, out: &mut [u8]) -> Result<usize, Fault>
    ensures { left result out.new ≡ writing_text (listing (shown t.now.table)) out.old }
{
    let mut races = Rows::empty();
    race_rows(t, &mut races);
    let races = Pairs {
        which: Section::Races,
        t: t.table,
        rows: &races,
    };
    let mut illegals = Rows::empty();
    illegal_rows(t, &mut illegals);
    let illegals = Pairs {
        which: Section::Illegals,
        t: t.table,
        rows: &illegals,
    };
    let first = races.section_length(b"races");
    let need = first + illegals.section_length(b"illegal");
    if out.len() < need {
        return Err(Refusal::Room.at(need));
    }
    let w = races.put_section(out, 0, b"races");
    Ok(illegals.put_section(out, w, b"illegal"))
}

// The call: the text of the table that the bytes are, or of its refusal. Of the faults only Room is answered.
pub fn listing(bytes: &[u8], out: &mut [u8]) -> Result<usize, Fault>
    ensures { left result out.new ≡ listing_call bytes.now out.old }
{
    match Table::read(bytes) {
        Ok(t) => list_table(&t, out),
        Err(f) => list_refused(f, out),
    }
}
