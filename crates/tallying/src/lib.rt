// How many samples each function has. The functions that are counted stand in ascending order, each with its samples, at the front of an
// array. So a function is found by halving, and the report needs no sorting.
#![tactic(auto)]

ghost use Rattle.std.specs.Prelude.{◌≡◌, ◌-◌, ◌/◌, ◌<◌, ◌≤◌, length, take};
ghost use Rattle.std.specs.List.{insert};
ghost use Rattle.tallying.specs.Functions.{place_for};
ghost use Rattle.tallying.specs.Credits.{Ascending, Credited, no_credits};
ghost use Rattle.tallying.specs.Tallies.{Between, functions_of, samples_of, stands_at};

use std::marker::Model;
use std::ops::Range;

// "The first 512 different functions in input order are counted"
pub const MOST: usize = 512;

// A function, and how many samples it has.
#[derive(Clone, Copy)]
pub struct Credit {
    pub function: u64,
    pub samples: u64,
}

// The functions that are counted, and the samples of the others. The places that are not used stay as they were at first, so that a tally holds
// nothing that its model does not tell, and may be copied.
#[derive(Clone, Copy)]
pub struct Tally {
    credits: [Credit; MOST],
    used: usize,
    other: u64,
}

impl Model for Tally {
    ghost use Rattle.tallying.specs.Credits.{Credits};

    ghost Value = { Credits };

    ghost use Rattle.tallying.specs.Tallies.{held_in, inside_of, Orderly};
    ghost use Rattle.tallying.specs.Copying.{gives_back};

    ghost view = { held_in };

    ghost invariant = { Orderly };

    ghost inverse = { inside_of };

    ghost inverse_ok = { gives_back };
}

impl Tally {
    // Before any sample.
    pub fn new() -> Tally
        ensures { result ≡ no_credits }
    {
        Tally {
            credits: [Credit {
                function: 0,
                samples: 0,
            }; MOST],
            used: 0,
            other: 0,
        }
    }

    // The functions that are counted, with their samples.
    pub fn credits(&self) -> &[Credit]
        ensures functions { functions_of result.now ≡ self.now.functions }
        ensures samples { samples_of result.now ≡ self.now.samples }
        ensures few { length result.now ≤ 512 }
        ensures order { Ascending self.now.functions }
    {
        &self.credits[..self.used]
    }

    // How many samples the other functions have.
    pub fn other(&self) -> u64
        ensures { result ≡ self.now.other }
    {
        self.other
    }

    // One sample more of a function: of a counted one, of one that is counted from now on, or of another.
    pub fn credit(&mut self, function: u64)
        ensures { Credited function self.old self.new }
    {
        let at = place_for(&self.credits[..self.used], function);
        if stands_at(&self.credits[..self.used], at, function) {
            self.credits[at].samples = self.credits[at].samples.wrapping_add(1);
        } else if self.used == MOST {
            self.other = self.other.wrapping_add(1);
        } else {
            let first = Credit {
                function,
                samples: 1,
            };
            insert_at(&mut self.credits[..=self.used], at, first);
            self.used += 1;
        }
    }
}

// As many halvings leave nothing of 512 functions to look at.
const HALVINGS: usize = 10;

// Looks at the function in the middle, and leaves half at most. By hand, since the library's search does not promise how many it looks at: that
// half is left is promised here, so that ten rounds are enough.
fn halve(credits: &[Credit], left: Range<usize>, function: u64) -> Range<usize>
    requires { Ascending (functions_of credits.now) × Between function (functions_of credits.now) left.start left.end }
    ensures { Between function (functions_of credits.now) result.start result.end
        × (result.end - result.start ≤ (left.end - left.start) / 2) }
{
    if left.is_empty() {
        return left;
    }
    let middle = left.start + left.len() / 2;
    if credits[middle].function < function {
        middle + 1..left.end
    } else {
        left.start..middle
    }
}

// How many of the counted functions are below this one: the place where it stands, or would stand.
fn place_for(credits: &[Credit], function: u64) -> usize
    requires { Ascending (functions_of credits.now) × (length credits.now ≤ 512) }
    ensures { (result ≡ place_for function (functions_of credits.now)) × (result ≤ length credits.now) }
{
    let mut left = 0..credits.len();
    for _ in 0..HALVINGS {
        left = halve(credits, left, function);
    }
    left.start
}

// Whether the function stands at its place.
#[tactic(auto, unfolding(crate::specs::Tallies::stands_at))]
fn stands_at(credits: &[Credit], at: usize, function: u64) -> bool
    ensures { result ≡ stands_at at function (functions_of credits.now) }
{
    credits
        .get(at)
        .is_some_and(|credit| credit.function == function)
}

// Puts a credit at its place, and moves those behind it up by one, over the last, which is free.
fn insert_at(credits: &mut [Credit], at: usize, credit: Credit)
    requires { at < length credits.old }
    ensures { credits.new ≡ insert (take (length credits.old - 1) credits.old) at credit }
{
    let last = credits.len() - 1;
    credits.copy_within(at..last, at + 1);
    credits[at] = credit;
}
