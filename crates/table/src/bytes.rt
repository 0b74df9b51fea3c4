// Numbers in bytes: one byte, or two, high byte first. Past the end of the bytes stand zeros.
ghost use Rattle.std.specs.Prelude.{◌≡◌, ◌<◌};
ghost use Rattle.rules.specs.Reading.{byte, two_bytes};

pub(crate) fn byte_at(bytes: &[u8], p: usize) -> u8
    ensures { result ≡ byte bytes.now p }
{
    bytes.get(p).copied().unwrap_or(0)
}

pub(crate) fn number_at(bytes: &[u8], p: usize) -> usize
    ensures { (result ≡ byte bytes.now p) × (result < 256) }
{
    usize::from(byte_at(bytes, p))
}

pub(crate) fn pair_at(bytes: &[u8], p: usize) -> usize
    requires { p < 65536 }
    ensures { (result ≡ two_bytes bytes.now p) × (result < 65536) }
{
    usize::from(u16::from_be_bytes([byte_at(bytes, p), byte_at(bytes, p + 1)]))
}
