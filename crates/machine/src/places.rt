// What may stand at the places of a state, and what it says of the task there.
ghost use Rattle.std.specs.Prelude.{◌≡◌, ◌<◌, length};
ghost use Rattle.rules.specs.Machine.{places, place_right, well_formed, held};
ghost use Rattle.table.specs.Answers.{shown};
ghost use Rattle.machine.specs.Places.{byte_of, IsPlace};

use crate::State;
use table::Table;

// What a byte of a state says: the task there is idle, outside, or inside an access.
#[derive(Clone, Copy, Debug, PartialEq, Eq)]
pub enum Place {
    Idle,
    Outside,
    Inside(u8),
}

impl From<u8> for Place {
    ghost from_gives = { IsPlace };

    #[tactic(auto, unfolding(crate::specs::Places::byte_of))]
    fn from(byte: u8) -> Place {
        match byte {
            State::IDLE => Place::Idle,
            State::OUTSIDE => Place::Outside,
            _ => Place::Inside(byte - State::INSIDE),
        }
    }
}

// No `From` the other way: a place inside an access above 253 has no byte.
impl Place {
    #[tactic(auto, unfolding(crate::specs::Places::byte_of))]
    pub(crate) fn byte(self) -> u8
        requires { byte_of self < 256 }
        ensures { result ≡ byte_of self }
    {
        match self {
            Place::Idle => State::IDLE,
            Place::Outside => State::OUTSIDE,
            Place::Inside(i) => State::INSIDE + i,
        }
    }
}

// This, which is not idle, may stand at place n. A call of its own, so that the pass over the places, most of which are idle, is a short loop.
#[inline(never)]
#[tactic(auto, using(table::proofs::Shown::accesses_shown), unfolding(crate::specs::Places::byte_of, rules::specs::Machine::place_right))]
fn active_right(t: &Table<'_>, n: usize, place: Place) -> bool
    requires { byte_of place ≡ 0 → ⊥ }
    ensures { result ≡ place_right (shown t.now) n (byte_of place) }
{
    if !t.is_task(n) {
        return false;
    }
    match place {
        Place::Inside(i) => i < t.accesses && t.task_of(usize::from(i)) == n,
        _ => true,
    }
}

// This may stand at place n.
#[tactic(auto, unfolding(crate::specs::Places::byte_of, rules::specs::Machine::place_right))]
fn place_right(t: &Table<'_>, n: usize, place: Place) -> bool
    ensures { result ≡ place_right (shown t.now) n (byte_of place) }
{
    match place {
        Place::Idle => true,
        _ => active_right(t, n, place),
    }
}

pub(crate) fn well_formed(t: &Table<'_>, p: &[u8; 128]) -> bool
    requires { length p.now ≡ places }
    ensures { result ≡ well_formed (shown t.now) p.now }
{
    p.iter()
        .enumerate()
        .all(|(n, v)| place_right(t, n, Place::from(*v)))
}

// The lock set of the open access of a task at whose place this stands; empty where the task is not inside.
#[tactic(auto, unfolding(crate::specs::Places::byte_of, rules::specs::Machine::held))]
pub(crate) fn held(t: &Table<'_>, place: Place) -> u32
    ensures { result ≡ held (shown t.now) (byte_of place) }
{
    match place {
        Place::Inside(i) => t.lock_set(usize::from(i)),
        _ => 0,
    }
}
