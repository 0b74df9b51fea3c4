// The stepping machine: its state, its steps, and the call that plays one step.
#![tactic(auto)]

mod places;
mod steps;
mod taking;

ghost use Rattle.std.specs.Prelude.{◌≡◌};
ghost use Rattle.rules.specs.Machine as rules;
ghost use Rattle.rules.specs.Calls.{stepped, step_call};
ghost use Rattle.table.specs.Answers.{shown};
ghost use Rattle.machine.specs.Answers.{step_of, left};

pub use places::Place;
use places::well_formed;
use table::{Checked, Fault, Refusal, Table};
use taking::pass;

// One place a node number: what stands there says whether the task is idle, outside, or inside an access. The places are bytes, since C lends
// them so.
#[derive(Clone, Copy)]
pub struct State {
    pub places: [u8; 128],
}

// Start, close and finish name a task; open names an access.
#[derive(Clone, Copy)]
pub enum Step {
    Start(usize),
    Open(usize),
    Close(usize),
    Finish(usize),
}

impl State {
    pub const IDLE: u8 = 0;

    pub const OUTSIDE: u8 = 1;

    // Inside access 0; access i is i further.
    pub const INSIDE: u8 = 2;

    #[tactic(auto, unfolding(rules::specs::Machine::fresh))]
    pub fn fresh() -> State
        ensures { result.places ≡ rules.fresh }
    {
        State { places: [0u8; 128] }
    }

    // The call: one step of the machine, on the table that the bytes are.
    pub fn step(self, bytes: &[u8], step: Step) -> Result<State, Fault>
        ensures { left self result ≡ step_call bytes.now self.places (step_of step) }
    {
        let t = Table::read(bytes)?;
        self.played(&t, step)
    }

    // One step on a table that has been read.
    #[tactic(auto, using(crate::proofs::Passed::passes, crate::proofs::Steppers::has_place, crate::proofs::Steppers::is_shown_node, crate::proofs::Steppers::next_byte))]
    fn played(mut self, t: &Checked<'_>, step: Step) -> Result<State, Fault>
        ensures { left self result ≡ stepped self.places (rules.step (shown t.now.table) self.places (step_of step)) }
    {
        if !well_formed(&t.table, &self.places) {
            return Err(Refusal::State.at(0));
        }
        if !step.named(&t.table) {
            return Err(Refusal::Name.at(0));
        }
        let x = step.stepper(t);
        let before = self.places[x];
        if !step.fits(Place::from(before)) {
            return Err(Refusal::Phase.at(0));
        }
        let Some(locks) = pass(t, &self.places, x) else {
            return Err(Refusal::Processor.at(0));
        };
        if !step.free(t, locks) {
            return Err(Refusal::Held.at(0));
        }
        let after = step.next().byte();
        self.places[x] = after;
        Ok(self)
    }
}
