// The levels in use, "top, bottom, interim": here alone code knows which levels a state has, and how large each is.
ghost use Rattle.std.specs.Prelude.{◌≡◌, false, ◌-◌, ◌^◌, ◌≤◌, ◌<◌, length};
ghost use Rattle.rules.specs.Words.{GoodState, at_rest, size_of, top_of, bottom_of, interim_of, levels_in_use};
ghost use Rattle.reading.specs.Levels.{NthLevel, nth_level};

use rules::{Level, State};
use words::power;

// "The top has 2^k buckets"
pub fn top(s: State) -> Level
    requires { GoodState 20 s }
    ensures { (result ≡ top_of s) × (result.exponent ≤ 20) }
{
    Level {
        name: 0,
        exponent: s.k,
    }
}

// "the bottom half that"
pub fn bottom(s: State) -> Level
    requires { GoodState 20 s }
    ensures { (result ≡ bottom_of s) × (result.exponent ≤ 20) }
{
    Level {
        name: 1,
        exponent: s.k - 1,
    }
}

// "while growing, an interim level has a quarter"; while shrinking it is the old top, with twice as many as the top.
pub fn interim(s: State) -> Level
    requires { GoodState 20 s × (at_rest s ≡ false) }
    ensures { (result ≡ interim_of s) × (result.exponent ≤ 20) }
{
    if s.shrinking() {
        return Level {
            name: 2,
            exponent: s.k + 1,
        };
    }
    Level {
        name: 2,
        exponent: s.k - 2,
    }
}

// How many levels are in use.
pub fn level_count(s: State) -> usize
    ensures { (result ≡ length (levels_in_use s)) × (result ≤ 3) }
{
    if s.at_rest() {
        return 2;
    }
    3
}

// The n-th of them, from 0. Top and bottom are told apart by arithmetic and not by a branch: a lookup asks for both.
pub fn nth_level(s: State, n: usize) -> Level
    requires { GoodState 20 s × (n < length (levels_in_use s)) }
    ensures { NthLevel s n result × (result.exponent ≤ 20) }
{
    if n == 2 {
        return interim(s);
    }
    let name = n as u64;
    Level {
        name,
        exponent: s.k - name,
    }
}

// The first bucket of the n-th: "buckets M − 1 to 2M − 2". The bottom's M is half the top's, so both come from one power of two by a shift.
pub fn nth_first(s: State, n: usize) -> usize
    requires { GoodState 20 s × (n < length (levels_in_use s)) }
    ensures { (result ≡ size_of (nth_level s n) - 1) × (result < 2 ^ 20) }
{
    if n == 2 {
        return power(interim(s).exponent) - 1;
    }
    (power(s.k) - 1) >> n
}
