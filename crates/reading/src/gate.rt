// The tests that come before all others: 1 the header, 2 the list's length, 3 the flag.
ghost use Rattle.std.specs.Prelude.{◌≡◌};
ghost use Rattle.rules.specs.Calls.{flag_clear, changing_tests, query_tests, recover_tests};
ghost use Rattle.rules.specs.declared.Refusal.TheVariants.{FlagSet};
ghost use Rattle.reading.specs.Gates.{gate_of, also, header_test, Ready};

use super::header::{decode, header_good};
use rules::layout::{FLAG, HEADER_WORDS};
use rules::{Header, Refusal};

// A good header to go on with, or the refusal of the first test that fails.
pub type Gate = Result<Header, Refusal>;

pub fn header_gate(t: &[u64]) -> Gate
    ensures { (result ≡ gate_of t.now (header_test t.now)) × Ready t.now result }
{
    if t.len() < HEADER_WORDS {
        return Err(Refusal::BadHeader);
    }
    let h = decode(t);
    if !header_good(t.len(), h) {
        return Err(Refusal::BadHeader);
    }
    Ok(h)
}

pub fn recover_gate(t: &[u64], n: usize) -> Gate
    ensures { (result ≡ gate_of t.now (recover_tests t.now n)) × Ready t.now result }
{
    let h = header_gate(t)?;
    if n < 20 {
        return Err(Refusal::ShortList);
    }
    Ok(h)
}

// Test 3, behind the others.
fn unflagged(t: &[u64], h: Header) -> Gate
    requires { Ready t.now (Ok h) }
    ensures { (result ≡ also (flag_clear t.now) FlagSet (Ok h)) × Ready t.now result }
{
    if t[FLAG] != 0 {
        return Err(Refusal::FlagSet);
    }
    Ok(h)
}

pub fn change_gate(t: &[u64], n: usize) -> Gate
    ensures { (result ≡ gate_of t.now (changing_tests t.now n)) × Ready t.now result }
{
    let h = recover_gate(t, n)?;
    unflagged(t, h)
}

pub fn query_gate(t: &[u64]) -> Gate
    ensures { (result ≡ gate_of t.now (query_tests t.now)) × Ready t.now result }
{
    let h = header_gate(t)?;
    unflagged(t, h)
}
