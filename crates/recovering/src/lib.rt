// Recovery: what it finds (a sound table, one key in two slots, a set flag with its slot, or none of these), and the stores that it
// lists.
#![tactic(auto)]

pub mod levels;
pub mod target;

ghost use Rattle.std.specs.Prelude.{◌≡◌, ◌≤◌, length};
ghost use Rattle.rules.specs.Words.{header_of, GoodHeader};
ghost use Rattle.rules.specs.Soundness.{finding as finding_of};
ghost use Rattle.rules.specs.Answers.{FindingTells};
ghost use Rattle.rules.specs.Calls.{recover_of};
ghost use Rattle.rules.specs.Calls.{recover as recover_call};
ghost use Rattle.listing.specs.Promises.{Changed, Did};
ghost use Rattle.recovering.specs.Found.{ScanWithin, FindingWithin, means, still_of, flagged_of};

use levels::{tokens_tidy, unused_empty};
use listing::{clear, redo};
use reading::gate::recover_gate;
use reading::slots::{record_at, token};
use rules::layout::{FLAG, LOGGED_FUNCTION, LOGGED_PLACE};
use rules::{Change, Finding, Header, Record, Refusal, Slot};
use scanning::copies::Scan;
use scanning::items::scan_table;
use target::find_target;

// With flag 0: "sound: no stores", or "sound but for one key that stands exactly twice with equal records".
#[tactic(auto, unfolding(rules::specs::Soundness::same_record))]
fn still(t: &[u64], scan: Scan) -> Finding
    requires { ScanWithin t.now scan }
    ensures { result ≡ still_of t.now scan }
{
    match scan {
        Scan::Clear => Finding::Sound,
        Scan::Pair(x, y) => {
            if record_at(t, x) == record_at(t, y) {
                return Finding::Doubled(x, y);
            }
            Finding::Neither
        }
        Scan::Spoilt => Finding::Neither,
    }
}

// With flag 1: "sound but for flag 1, with word 6 the key word of a taken slot in a level in use".
fn flagged(scan: Scan, target: Option<Slot>) -> Finding
    ensures { result ≡ flagged_of (means target) scan }
{
    match (scan, target) {
        (Scan::Clear, Some(x)) => Finding::Flagged(x),
        _ => Finding::Neither,
    }
}

// "Recovery accepts exactly three kinds of table": which one this is.
pub fn finding(t: &[u64], h: Header) -> Finding
    requires { GoodHeader (length t.now) h × (h ≡ header_of t.now) }
    ensures { FindingTells result (finding_of t.now) × FindingWithin t.now result }
{
    if !tokens_tidy(t, h) {
        return Finding::Neither;
    }
    if !unused_empty(t, h) {
        return Finding::Neither;
    }
    let scan = scan_table(t, h);
    if t[FLAG] == 0 {
        return still(t, scan);
    }
    if t[FLAG] == 1 {
        return flagged(scan, find_target(t, h));
    }
    Finding::Neither
}

// "sound: no stores"; "clear the later ..: one store"; "function and place from words 7 and 8, then flag 0: three stores"
fn recover_at(t: &[u64], list: &mut [u64], h: Header) -> Change
    requires { (20 ≤ length list.old) × GoodHeader (length t.now) h × (h ≡ header_of t.now) }
    ensures { Did (recover_of t.now h (finding_of t.now)) list.old result list.new }
{
    match finding(t, h) {
        Finding::Sound => Ok(0),
        Finding::Doubled(_, later) => {
            let cleared = clear(list, 0, h, token(t, later.bucket), later);
            Ok(cleared as u64)
        }
        Finding::Flagged(x) => {
            let logged = Record {
                function: t[LOGGED_FUNCTION],
                place: t[LOGGED_PLACE],
            };
            let redone = redo(list, 0, x, logged);
            Ok(redone as u64)
        }
        Finding::Neither => Err(Refusal::NoKind),
    }
}

// After the tests 1 and 2, and no test of the flag: "12 | none of the three kinds above".
pub fn recover(t: &[u64], list: &mut [u64]) -> Change
    ensures { Changed recover_call t.now list.old result t.now list.new }
{
    let h = recover_gate(t, list.len())?;
    recover_at(t, list, h)
}
