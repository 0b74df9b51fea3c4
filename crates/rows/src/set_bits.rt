// The numbers of the set bits of a word, lowest first.
ghost use Rattle.std.specs.Prelude.{◌≡◌, ◌^◌, ◌<◌};
ghost use Rattle.std.specs.Iterator.{YieldsFirst, item_count};
ghost use Rattle.rows.specs.Bits.{set_bits};

// The bits that are still to come.
#[derive(Clone, Copy)]
pub struct SetBits {
    left: u64,
    ghost fits: { left < 2 ^ 64 },
}

pub fn bits(word: u64) -> SetBits
    ensures { result.left ≡ word }
{
    SetBits { left: word }
}

impl Iterator for SetBits {
    type Item = usize;

    ghost next_gives = { YieldsFirst (λ s. set_bits s.left) };

    ghost remaining = { item_count (λ s. set_bits s.left) };

    #[inline(always)]
    fn next(&mut self) -> Option<usize> {
        if self.left == 0 {
            return None;
        }
        let j = self.left.trailing_zeros() as usize;
        self.left &= self.left - 1;
        Some(j)
    }
}
