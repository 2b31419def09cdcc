// The report of a ledger as text.
#![tactic(auto)]

ghost use Rattle.std.specs.Prelude.{◌+◌, ◌*◌, ◌≤◌, length};
ghost use Rattle.tallying.specs.Tallies.{functions_of, samples_of};
ghost use Rattle.saying.specs.Writing.{Put};
ghost use Rattle.crediting.specs.Books.{figures_in, report_at};
ghost use Rattle.reporting.specs.Texts.{function_text, function_texts, counts_text};
ghost use Rattle.reporting.specs.Promises.{longest, Reported};

use crediting::{Counts, Ledger, Stage};
use numbering::number;
use saying::{copy, put_line, tell};
use tallying::Credit;

// "one `fn` line for each function ascending (as `fn10=3`)"
fn put_function(credit: &Credit, out: &mut [u8], at: usize) -> usize
    requires { at + 44 ≤ length out.old }
    ensures { Put (function_text credit.now.function credit.now.samples) at out.old result out.new × (result ≤ at + 44) }
{
    let named = copy(b"fn", out, at);
    let told = tell(credit.function, out, named);
    let equal = copy(b"=", out, told);
    let counted = tell(credit.samples, out, equal);
    copy(b"\n", out, counted)
}

// A line for each of these functions.
fn put_functions(credits: &[Credit], out: &mut [u8], start: usize) -> usize
    requires { start + 44 * length credits.now ≤ length out.old }
    ensures { Put (function_texts (functions_of credits.now) (samples_of credits.now)) start out.old result out.new
        × (result ≤ start + 44 * length credits.now) }
{
    let mut at = start;
    for credit in credits {
        at = put_function(credit, out, at);
    }
    at
}

// "Lines, in order: `samples=`, `none=`, one `fn` line for each function ascending (as `fn10=3`), `other=`, `buckets=`."
fn put_counts(counts: &Counts, out: &mut [u8]) -> usize
    requires { longest ≤ length out.old }
    ensures { Put (counts_text (figures_in counts.now)) 0 out.old result out.new }
{
    let second = put_line(b"samples=", counts.samples, out, 0);
    let third = put_line(b"none=", counts.missing, out, second);
    let others = put_functions(counts.tally.credits(), out, third);
    let last = put_line(b"other=", counts.tally.other(), out, others);
    put_line(b"buckets=", counts.buckets, out, last)
}

// Puts a ledger's report at the front of a buffer, and answers how many bytes it has.
pub fn report(ledger: &Ledger, out: &mut [u8]) -> usize
    requires { longest ≤ length out.old }
    ensures { Reported (report_at ledger.now.stage (figures_in ledger.now.counts)) out.old result out.new }
{
    match ledger.stage {
        Stage::Script | Stage::Samples => put_counts(&ledger.counts, out),
        Stage::Unmade(refusal) => put_line(b"made=", number(refusal), out, 0),
        Stage::Unrecovered(refusal) => put_line(b"answer=", number(refusal), out, 0),
        Stage::Bad(line) => put_line(b"bad=", line, out, 0),
    }
}
