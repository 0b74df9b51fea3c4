// The listing call at its edges. Each case is what the call answers, and then the whole buffer after it, whose bytes were dots.
ghost use Rattle.std.specs.Prelude.{◌≤◌};

use std::io::{self, Write};

fn shown(to: &mut impl Write, bytes: &[u8], room: usize) -> io::Result<()>
    requires { room ≤ 80 }
{
    let mut dots = [b'.'; 80];
    let out = &mut dots[..room];
    match listing::listing(bytes, out) {
        Ok(k) => writeln!(to, "bytes {k}")?,
        Err(fault) => writeln!(to, "{fault}")?,
    }
    to.write_all(out)?;
    to.write_all(b"\n")
}

pub fn run(to: &mut impl Write) -> io::Result<()> {
    // Table W, and a byte more.
    let w =
        *b"\x01\x07\x00\x01\x00\x01\x00\x04\x01\x00\x01\x00\x02\x00\x02\x00\x02\x00\x01\x01\x02\x00\x00\x01\x01\x01\x03\x03\x00\x00\x00\x00\x00\x05\x00\x00\x00\x00\x01\x06\x00\x00\x00\x00\x02\x00";
    shown(to, b"", 80)?;
    shown(to, &w[..45], 80)?;
    shown(to, &w[..44], 80)?;
    shown(to, &w, 80)?;
    // A set with a bit above the locks.
    let mut wide = w;
    wide[38] = 5;
    shown(to, &wide[..45], 80)?;
    // Task 3 holds a lock that is not above it.
    let mut held = w;
    held[32] = 2;
    shown(to, &held[..45], 80)?;
    // 69 bytes of room hold W's listing; 68 give 12 with place 69.
    shown(to, &w[..45], 69)?;
    shown(to, &w[..45], 68)?;
    shown(to, b"", 0)
}
