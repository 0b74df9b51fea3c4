// The listing of a table that is refused: its one line, byte for byte as `refused_line` has it. `Display` of a fault says nothing that a contract
// could cite, and writes to no lent buffer.
ghost use Rattle.std.specs.Prelude.{◌≡◌};
ghost use Rattle.rules.specs.Listing.{refused_line, writing_text};
ghost use Rattle.table.specs.Answers.{number, left};
ghost use Rattle.rows.specs.Writing.{Wrote};

use table::{Fault, Refusal};
use text::Pen;

fn put_refused(out: &mut [u8], f: Fault) -> usize
    ensures { Wrote out.old 0 (refused_line (number f) f.place) out.new result }
{
    let number = f.number();
    let mut pen = Pen::new(out, 0);
    pen.part(b"refused", &[number]);
    pen.line(b" at", &[f.place]);
    pen.at
}

// A run over no buffer counts the line's bytes.
pub(crate) fn list_refused(f: Fault, out: &mut [u8]) -> Result<usize, Fault>
    ensures { left result out.new ≡ writing_text (refused_line (number f) f.place) out.old }
{
    let need = put_refused(&mut [0; 0], f);
    if out.len() < need {
        return Err(Refusal::Room.at(need));
    }
    Ok(put_refused(out, f))
}
