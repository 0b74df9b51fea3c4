// The symbols that C programs link, in include/chinebright.h: each is the call of its name, under the same clause.
#![tactic(auto)]

ghost use Rattle.std.specs.Prelude.{◌≡◌};
ghost use Rattle.rules.specs.Calls.{read_call, preempts_call, races_call, illegal_call, thresholds_call, fresh_call, step_call};
ghost use Rattle.rules.specs.Listing.{listing_call};
ghost use Rattle.chinebright.specs.Coded.{coded, coded_of, leaves};
ghost use Rattle.chinebright.specs.Steps.{step_named};

use chinebright::stepping;

#[unsafe(no_mangle)]
pub extern "C" fn chinebright_read(table: &[u8]) -> u64
    ensures { result ≡ coded (read_call table.now) }
{
    chinebright::chinebright_read(table)
}

#[unsafe(no_mangle)]
pub extern "C" fn chinebright_preempts(table: &[u8], t: usize, u: usize) -> u64
    ensures { result ≡ coded (preempts_call table.now t u) }
{
    chinebright::chinebright_preempts(table, t, u)
}

#[unsafe(no_mangle)]
pub extern "C" fn chinebright_races(table: &[u8], out: &mut [u8]) -> u64
    ensures { leaves result out.new ≡ coded_of (races_call table.now out.old) }
{
    chinebright::chinebright_races(table, out)
}

#[unsafe(no_mangle)]
pub extern "C" fn chinebright_illegal(table: &[u8], out: &mut [u8]) -> u64
    ensures { leaves result out.new ≡ coded_of (illegal_call table.now out.old) }
{
    chinebright::chinebright_illegal(table, out)
}

#[unsafe(no_mangle)]
pub extern "C" fn chinebright_thresholds(table: &[u8], out: &mut [u8]) -> u64
    ensures { leaves result out.new ≡ coded_of (thresholds_call table.now out.old) }
{
    chinebright::chinebright_thresholds(table, out)
}

#[unsafe(no_mangle)]
pub extern "C" fn chinebright_listing(table: &[u8], out: &mut [u8]) -> u64
    ensures { leaves result out.new ≡ coded_of (listing_call table.now out.old) }
{
    chinebright::chinebright_listing(table, out)
}

#[unsafe(no_mangle)]
pub extern "C" fn chinebright_fresh(state: &mut [u8]) -> u64
    ensures { leaves result state.new ≡ coded_of (fresh_call state.old) }
{
    stepping::chinebright_fresh(state)
}

#[unsafe(no_mangle)]
pub extern "C" fn chinebright_step(table: &[u8], state: &mut [u8], kind: u8, n: usize) -> u64
    ensures { leaves result state.new ≡ coded_of (step_call table.now state.old (step_named kind n)) }
{
    stepping::chinebright_step(table, state, kind, n)
}
