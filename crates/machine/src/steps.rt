// What a step names, asks for and leaves.
ghost use Rattle.std.specs.Prelude.{◌≡◌, true, ◌<◌};
ghost use Rattle.rules.specs.Machine.{stepper, named, fits, next};
ghost use Rattle.table.specs.Answers.{shown};
ghost use Rattle.machine.specs.Answers.{step_of};
ghost use Rattle.machine.specs.OtherTasks.{free_of};
ghost use Rattle.machine.specs.Places.{byte_of};

use crate::Step;
use crate::places::Place;
use locks::blocked;
use table::{Checked, Table};

impl Step {
    // The step names a task, or an access.
    #[tactic(auto, using(table::proofs::Shown::accesses_shown), unfolding(crate::specs::Answers::step_of, rules::specs::Machine::named))]
    pub(crate) fn named(self, t: &Table<'_>) -> bool
        ensures { result ≡ named (shown t.now) (step_of self) }
    {
        match self {
            Step::Open(i) => i < usize::from(t.accesses),
            Step::Start(x) | Step::Close(x) | Step::Finish(x) => t.is_task(x),
        }
    }

    // The task whose step it is.
    #[tactic(auto, unfolding(crate::specs::Answers::step_of, rules::specs::Machine::stepper))]
    pub(crate) fn stepper(self, t: &Checked<'_>) -> usize
        requires { named (shown t.now.table) (step_of self) ≡ true }
        ensures { result ≡ stepper (shown t.now.table) (step_of self) }
    {
        match self {
            Step::Open(i) => t.table.task_of(i),
            Step::Start(x) | Step::Close(x) | Step::Finish(x) => x,
        }
    }

    // The step fits the task's phase, which its place says.
    #[tactic(auto, unfolding(crate::specs::Answers::step_of, rules::specs::Machine::fits, crate::specs::Places::byte_of))]
    pub(crate) fn fits(self, place: Place) -> bool
        ensures { result ≡ fits (step_of self) (byte_of place) }
    {
        match self {
            Step::Start(_) => matches!(place, Place::Idle),
            Step::Open(_) | Step::Finish(_) => matches!(place, Place::Outside),
            Step::Close(_) => matches!(place, Place::Inside(_)),
        }
    }

    // Open alone asks for blocking locks: none of them is among these, which the others hold.
    #[tactic(auto, unfolding(crate::specs::Answers::step_of, crate::specs::OtherTasks::free_of))]
    pub(crate) fn free(self, t: &Checked<'_>, locks: u32) -> bool
        requires { named (shown t.now.table) (step_of self) ≡ true }
        ensures { result ≡ free_of (shown t.now.table) locks (step_of self) }
    {
        match self {
            Step::Open(i) => {
                let set = t.table.lock_set(i);
                !blocked(&t.table, set, locks)
            }
            _ => true,
        }
    }

    // What stands at the task's place after the step.
    #[tactic(auto, unfolding(crate::specs::Answers::step_of, rules::specs::Machine::next, crate::specs::Places::byte_of))]
    pub(crate) fn next(self) -> Place
        requires { next (step_of self) < 256 }
        ensures { byte_of result ≡ next (step_of self) }
    {
        match self {
            Step::Start(_) | Step::Close(_) => Place::Outside,
            Step::Open(i) => Place::Inside(i as u8),
            Step::Finish(_) => Place::Idle,
        }
    }
}
