// The findings program: reads a table from standard input, and writes its listing. One byte more than the longest table has is enough to read.
#![tactic(auto)]

ghost use Rattle.std.specs.Prelude.{◌≡◌, ◌≤◌, length, IfOk};

use lines::{Pairs, Section};
use listing::listing;
use matrix::illegal::illegal_rows;
use matrix::race_rows;
use rows::Rows;
use std::io::{self, Read, Write};
use table::{Checked, Table};
use text::Pen;

// Reads until the buffer is full or the input ends, since one read may give less than there is, and answers how many bytes came. Std's
// `read_exact` fails where the input is shorter, and no method of it stops at either.
fn fill<R: Read>(from: &mut R, input: &mut [u8]) -> io::Result<usize>
    ensures filled { IfOk result (λ n. n ≤ length input.new) }
    ensures kept { length input.new ≡ length input.old }
{
    let mut n = 0;
    while n < input.len() {
        let more = from.read(&mut input[n..])?;
        if more == 0 {
            return Ok(n);
        }
        n += more;
    }
    Ok(n)
}

// The lines of a section, 16 accesses at a time. Where a write fails nothing more is written.
fn write_lines<W: Write>(to: &mut W, out: &mut [u8; 65536], pairs: &Pairs<'_>) -> io::Result<()> {
    let count = usize::from(pairs.t.accesses);
    for i in (0..count).step_by(16) {
        let n = (count - i).min(16);
        let k = pairs.put_some(out, i, n);
        to.write_all(&out[..k])?;
    }
    Ok(())
}

// A section as `section` (rules/specs/Listing.antt) has it: the line with the number of its pairs, and then their lines, which are those of its
// pieces one after the other (`lines_pieces`, lines/proofs/SectionPieces.antt).
#[tactic(auto, using(table::proofs::Bounds::few_accesses_lem))]
fn write_section<W: Write>(
    to: &mut W,
    out: &mut [u8; 65536],
    word: &[u8],
    pairs: &Pairs<'_>,
) -> io::Result<()>
    requires { length word.now ≤ 8 }
{
    let count = pairs.rows.count(usize::from(pairs.t.accesses));
    let mut pen = Pen::new(out, 0);
    pen.line(word, &[count]);
    let k = pen.at;
    to.write_all(&out[..k])?;
    write_lines(to, out, pairs)
}

// The listing of a table that was read: what `listing` writes, in less room.
fn write_table<W: Write>(to: &mut W, t: &Checked<'_>, out: &mut [u8; 65536]) -> io::Result<()> {
    let mut races = Rows::empty();
    race_rows(t, &mut races);
    let races = Pairs {
        which: Section::Races,
        t: t.table,
        rows: &races,
    };
    write_section(to, out, b"races", &races)?;
    let mut illegals = Rows::empty();
    illegal_rows(t, &mut illegals);
    let illegals = Pairs {
        which: Section::Illegals,
        t: t.table,
        rows: &illegals,
    };
    write_section(to, out, b"illegal", &illegals)
}

// A refused table has a short listing, so none comes here.
fn write_long<W: Write>(to: &mut W, bytes: &[u8], out: &mut [u8; 65536]) -> io::Result<()> {
    match Table::read(bytes) {
        Ok(t) => write_table(to, &t, out),
        Err(_) => Ok(()),
    }
}

// Few listings need more than 64 kilobytes. A longer one is written in pieces, since a program that made room for it would spend its time on the
// pages of that room, on every table. The buffer is made before anything is read, else it is filled twice.
fn main(rt: HostRuntime) -> io::Result<()> {
    let mut out = [0; 65536];
    let mut input = [0; 1254];
    let n = fill(&mut rt.stdin(), &mut input)?;
    let bytes = &input[..n];
    let mut to = rt.stdout();
    match listing(bytes, &mut out) {
        Ok(k) => to.write_all(&out[..k]),
        Err(_) => write_long(&mut to, bytes, &mut out),
    }
}
