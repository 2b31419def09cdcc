// "every token word at most 15", which is of form 1, "and 0 in levels not in use"
ghost use Rattle.std.specs.Prelude.{◌≡◌, map, ◌^◌, ◌≤◌, length};
ghost use Rattle.rules.specs.Choice.{all};
ghost use Rattle.rules.specs.Words.{GoodState, GoodHeader, exponent_in_use, buckets_of, all_buckets, unused_buckets};
ghost use Rattle.recovering.specs.Found.{tidy_token, zero_token};

use reading::levels::{level_count, nth_level};
use reading::slots::token;
use reading::tokens::meant;
use rules::{Header, State};
use words::power;

pub fn tokens_tidy(t: &[u64], h: Header) -> bool
    requires { GoodHeader (length t.now) h }
    ensures { result ≡ all (map (tidy_token t.now h) (all_buckets h)) }
{
    (0..power(h.c + 1) - 1).all(|j| {
        let word = token(t, j);
        word == meant(t, h, j, word)
    })
}

// Whether a level in use has 2^e buckets.
fn in_use(s: State, e: u64) -> bool
    requires { GoodState 20 s }
    ensures { result ≡ exponent_in_use s e }
{
    (0..level_count(s)).any(|n| nth_level(s, n).exponent == e)
}

fn level_empty(t: &[u64], h: Header, e: u64) -> bool
    requires { GoodHeader (length t.now) h × (e ≤ h.c) }
    ensures { result ≡ all (map (zero_token t.now) (buckets_of (2 ^ e))) }
{
    let size = power(e);
    (size - 1..2 * size - 1).all(|j| token(t, j) == 0)
}

pub fn unused_empty(t: &[u64], h: Header) -> bool
    requires { GoodHeader (length t.now) h }
    ensures { result ≡ all (map (zero_token t.now) (unused_buckets h)) }
{
    (0..h.c + 1).all(|e| in_use(h.state, e) || level_empty(t, h, e))
}
