// A whole line at once, where there is room: eight bytes at a time, so that the compiler makes one load and one store of them.
// A pen would test each byte against the end, where the room is proved, and be no plainer than a place.
#![tactic(auto)]

ghost use Rattle.std.specs.Prelude.{◌≡◌, ◌++◌, ◌+◌, ◌-◌, ◌≤◌, length};
ghost use Rattle.std.proofs.lemmas.List.Edits.{sets};
ghost use Rattle.rows.specs.Writing.{Wrote};
ghost use Rattle.store.specs.Parts.{part};

// The eight bytes of from at a place. All are read before the first is written, else the compiler must take it that they may overlap, and
// tests for that at each copy: by `copy_from_slice` a section of 2,018 lines took 84,357 instructions, and takes 36,139.
fn store_eight(from: &[u8], at: usize, out: &mut [u8], k: usize)
    requires { (at + 8 ≤ length from.now) × (k + 8 ≤ length out.old) }
    ensures { out.new ≡ sets out.old k (part at 8 from.now) }
{
    let mut eight = [0; 8];
    for i in 0..8 {
        eight[i] = from[at + i];
    }
    for i in 0..8 {
        out[k + i] = eight[i];
    }
}

// The head, and then the last n of the eight bytes of tails at a place. The tail's eight go first, since what stands before the tail there is no
// part of the line: the head's first, middle and last eight, which may overlap, go over it.
pub fn store_line(
    out: &mut [u8],
    k: usize,
    head: &[u8],
    tails: &[u8; 1024],
    at: usize,
    n: usize,
) -> usize
    requires { (8 ≤ length head.now) × (length head.now ≤ 24) × (at + 8 ≤ 1024) × (n ≤ 8) × (k + length head.now + n ≤ length out.old) }
    ensures { Wrote out.old k (head.now ++ part (at + 8 - n) n tails.now) out.new result }
{
    let last = head.len() - 8;
    let middle = last / 2;
    let end = k + head.len() + n;
    store_eight(tails, at, out, end - 8);
    store_eight(head, 0, out, k);
    store_eight(head, middle, out, k + middle);
    store_eight(head, last, out, k + last);
    end
}
