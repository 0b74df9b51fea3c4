// Refusals: what a table, a state or a step is refused for, and where.
ghost use Rattle.std.specs.Prelude.{◌≡◌};
ghost use Rattle.table.specs.Answers.{number};

use std::fmt;

// Each refusal has its number.
#[derive(Clone, Copy, Debug, PartialEq, Eq)]
pub enum Refusal {
    Short = 1,
    Form = 2,
    Count = 3,
    Parent = 4,
    Kind = 5,
    Provider = 6,
    Covered = 7,
    Task = 8,
    Resource = 9,
    LockSet = 10,
    Leftover = 11,
    Room = 12,
    NoThresholds = 13,
    State = 14,
    Name = 15,
    Phase = 16,
    Processor = 17,
    Held = 18,
}

// A refusal and its place.
#[derive(Clone, Copy, Debug, PartialEq, Eq)]
pub struct Fault {
    pub refusal: Refusal,
    pub place: usize,
}

impl Refusal {
    pub fn at(self, place: usize) -> Fault
        ensures { result ≡ record { refusal = self; place = place } }
    {
        Fault {
            refusal: self,
            place,
        }
    }
}

impl Fault {
    #[tactic(auto, using(crate::proofs::Faults::tag_numbered), unfolding(crate::specs::Answers::number))]
    pub fn number(self) -> usize
        ensures { result ≡ number self }
    {
        self.refusal as usize
    }
}

impl fmt::Display for Fault {
    fn fmt<W: fmt::Write>(&self, f: &mut fmt::Formatter<W>) -> fmt::Result {
        write!(f, "refused {} at {}", self.number(), self.place)
    }
}
