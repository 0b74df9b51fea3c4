// The stepping machine through C: the state is lent as bytes.
ghost use Rattle.std.specs.Prelude.{◌≡◌, length};
ghost use Rattle.rules.specs.Calls.{fresh_call, step_call};
ghost use Rattle.rules.specs.Machine.{places};
ghost use Rattle.machine.specs.Answers.{step_of};
ghost use Rattle.chinebright.specs.Coded.{coded_of, leaves};
ghost use Rattle.chinebright.specs.Steps.{step_named};

use crate::refused;
use machine::{State, Step};
use table::{Refusal, Table};

// The step that a kind and a number name: C passes the kind as a number. No task has the number 128, so a kind that is none of the four names no task.
#[tactic(auto, unfolding(crate::specs::Steps::step_named, machine::specs::Answers::step_of))]
fn step_named(kind: u8, n: usize) -> Step
    ensures { step_of result ≡ step_named kind n }
{
    match kind {
        0 => Step::Start(n),
        1 => Step::Open(n),
        2 => Step::Close(n),
        3 => Step::Finish(n),
        4.. => Step::Start(128),
    }
}

pub fn chinebright_fresh(state: &mut [u8]) -> u64
    ensures { leaves result state.new ≡ coded_of (fresh_call state.old) }
{
    if state.len() < 128 {
        return refused(Refusal::Room.at(128));
    }
    state[..128].copy_from_slice(&State::fresh().places);
    128
}

// A state that has not 128 places is malformed, once the table is read.
fn malformed(table: &[u8], state: &[u8], kind: u8, n: usize) -> u64
    requires { length state.now ≡ places → ⊥ }
    ensures { leaves result state.now ≡ coded_of (step_call table.now state.now (step_named kind n)) }
{
    match Table::read(table) {
        Err(fault) => refused(fault),
        Ok(_) => refused(Refusal::State.at(0)),
    }
}

pub fn chinebright_step(table: &[u8], state: &mut [u8], kind: u8, n: usize) -> u64
    ensures { leaves result state.new ≡ coded_of (step_call table.now state.old (step_named kind n)) }
{
    let Ok(places) = <[u8; 128]>::try_from(&*state) else {
        return malformed(table, state, kind, n);
    };
    match (State { places }).step(table, step_named(kind, n)) {
        Ok(next) => {
            state.copy_from_slice(&next.places);
            0
        }
        Err(fault) => refused(fault),
    }
}
