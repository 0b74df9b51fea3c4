// The calls of the C interface, which `chinebright_c` exports: each answers the refusal's number (0 where there is none) times 2^32, plus the value or the refusal's place.
#![tactic(auto)]

pub mod stepping;

ghost use Rattle.std.specs.Prelude.{◌≡◌, ◌+◌, ◌*◌, ◌<◌, IfErr};
ghost use Rattle.rules.specs.Calls.{read_call, preempts_call, races_call, illegal_call, thresholds_call};
ghost use Rattle.rules.specs.Listing.{listing_call};
ghost use Rattle.table.specs.Answers.{number};
ghost use Rattle.chinebright.specs.Coded.{coded, coded_of, leaves, said};

use table::{Fault, Table};

pub(crate) fn refused(fault: Fault) -> u64
    requires { fault.place < 4294967296 }
    ensures { result ≡ number fault * 4294967296 + fault.place }
{
    fault.number() as u64 * 4294967296 + fault.place as u64
}

// An answer as one number.
pub(crate) fn coded(answer: Result<usize, Fault>) -> u64
    requires { IfErr answer (λ f. f.place < 4294967296) }
    ensures { result ≡ coded (said answer) }
{
    match answer {
        Ok(value) => value as u64,
        Err(fault) => refused(fault),
    }
}

pub fn chinebright_read(table: &[u8]) -> u64
    ensures { result ≡ coded (read_call table.now) }
{
    match Table::read(table) {
        Ok(_) => 0,
        Err(fault) => refused(fault),
    }
}

pub fn chinebright_preempts(table: &[u8], t: usize, u: usize) -> u64
    ensures { result ≡ coded (preempts_call table.now t u) }
{
    match tree::preempts(table, t, u) {
        Ok(may) => u64::from(may),
        Err(fault) => refused(fault),
    }
}

pub fn chinebright_races(table: &[u8], out: &mut [u8]) -> u64
    ensures { leaves result out.new ≡ coded_of (races_call table.now out.old) }
{
    coded(races::races(table, out))
}

pub fn chinebright_illegal(table: &[u8], out: &mut [u8]) -> u64
    ensures { leaves result out.new ≡ coded_of (illegal_call table.now out.old) }
{
    coded(races::illegal(table, out))
}

pub fn chinebright_thresholds(table: &[u8], out: &mut [u8]) -> u64
    ensures { leaves result out.new ≡ coded_of (thresholds_call table.now out.old) }
{
    coded(priorities::thresholds(table, out))
}

pub fn chinebright_listing(table: &[u8], out: &mut [u8]) -> u64
    ensures { leaves result out.new ≡ coded_of (listing_call table.now out.old) }
{
    coded(listing::listing(table, out))
}
