// Words and numbers into a lent buffer. The same methods count and write: a byte past the end of the buffer only moves the place on, so a run
// over an empty buffer answers how many bytes a text has.
#![tactic(auto)]

ghost use Rattle.std.specs.Prelude.{◌≡◌, [], ◌∷◌, ◌++◌, ◌+◌, ◌*◌, ◌<◌, ◌≤◌, length};
ghost use Rattle.rules.specs.Listing.{decimal, fields, line};

// How many digits n has.
#[tactic(auto, using(crate::proofs::Numbers::one_digit, crate::proofs::Numbers::two_digits, crate::proofs::Numbers::three_digits, crate::proofs::Numbers::four_digits, crate::proofs::Numbers::five_digits))]
pub fn digits(n: usize) -> usize
    requires { n < 100000 }
    ensures { (result ≡ length (decimal n)) × (result ≤ 5) }
{
    match n {
        0..=9 => 1,
        10..=99 => 2,
        100..=999 => 3,
        1000..=9999 => 4,
        _ => 5,
    }
}

// A lent buffer, and the place where the next byte goes.
#[derive(Drop)]
pub struct Pen<'a> {
    out: &'a mut [u8],
    pub at: usize,
}

impl<'a> Pen<'a> {
    ghost use Rattle.text.specs.Writes.{Writes};

    pub fn new(out: &'a mut [u8], at: usize) -> Pen<'a>
        ensures { (result.out.ghost_name ≡ out.entry.ghost_name) × (result.out.now ≡ out.old) × (result.at ≡ at) }
    {
        Pen { out, at }
    }

    pub fn put(&mut self, b: u8)
        requires { self.old.at < 4294967296 }
        ensures { Writes self.old (b ∷ []) self.new × (self.new.at ≡ self.old.at + 1) }
    {
        if self.at < self.out.len() {
            self.out[self.at] = b;
        }
        self.at += 1;
    }

    fn word(&mut self, word: &[u8])
        requires { self.old.at + length word.now < 4294967296 }
        ensures { Writes self.old word.now self.new × (self.new.at ≡ self.old.at + length word.now) }
    {
        for b in word {
            self.put(*b);
        }
    }

    // n in decimal.
    pub fn number(&mut self, n: usize)
        requires { self.old.at + 20 < 4294967296 }
        ensures { Writes self.old (decimal n) self.new × (self.new.at ≤ self.old.at + 20) }
    {
        if n >= 10 {
            self.number(n / 10);
        }
        self.put(48 + (n % 10) as u8);
    }

    // Each number after a space.
    fn fields(&mut self, ns: &[usize])
        requires { self.old.at + 21 * length ns.now < 4294967296 }
        ensures { Writes self.old (fields ns.now) self.new × (self.new.at ≤ self.old.at + 21 * length ns.now) }
    {
        for n in ns {
            self.put(b' ');
            self.number(*n);
        }
    }

    // A word, and numbers after it.
    pub fn part(&mut self, word: &[u8], ns: &[usize])
        requires { self.old.at + length word.now + 21 * length ns.now < 4294967296 }
        ensures { Writes self.old (word.now ++ fields ns.now) self.new × (self.new.at ≤ self.old.at + length word.now + 21 * length ns.now) }
    {
        self.word(word);
        self.fields(ns);
    }

    pub fn line(&mut self, word: &[u8], ns: &[usize])
        requires { self.old.at + length word.now + 21 * length ns.now < 4294967296 }
        ensures { Writes self.old (line word.now ns.now) self.new × (self.new.at ≤ self.old.at + length word.now + 21 * length ns.now + 1) }
    {
        self.part(word, ns);
        self.put(b'\n');
    }
}
