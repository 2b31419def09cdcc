// The header: words 0 to 4 decoded, and test 1.
ghost use Rattle.std.specs.Prelude.{◌≡◌, ◌≤◌, length};
ghost use Rattle.rules.specs.Choice.{all};
ghost use Rattle.rules.specs.Words.{words_for, header_of, header_tests};

use super::forms::form_good;
use rules::layout::{BUCKET_WORDS, CAPACITY, FORM, HEADER_WORDS, MULTIPLIER1, MULTIPLIER2, STATE};
use rules::{Header, State};
use words::power;

pub fn decode(t: &[u64]) -> Header
    requires { 9 ≤ length t.now }
    ensures { result ≡ header_of t.now }
{
    Header {
        form: t[FORM],
        c: t[CAPACITY],
        mul1: t[MULTIPLIER1],
        mul2: t[MULTIPLIER2],
        state: State::of_word(t[STATE]),
    }
}

// "The table has exactly 9 + 13·(2^(c+1) − 1) words"
pub fn words_for(c: u64) -> usize
    requires { c ≤ 20 }
    ensures { result ≡ words_for c }
{
    HEADER_WORDS + BUCKET_WORDS * (power(c + 1) - 1)
}

// "length, form, c, multipliers or state"
pub fn header_good(size: usize, h: Header) -> bool
    ensures { result ≡ all (header_tests size h) }
{
    if h.c < 1 {
        return false;
    }
    if 20 < h.c {
        return false;
    }
    if size != words_for(h.c) {
        return false;
    }
    if !form_good(h.form) {
        return false;
    }
    if h.mul1 % 2 != 1 {
        return false;
    }
    if h.mul2 % 2 != 1 {
        return false;
    }
    h.state.good(h.c)
}
