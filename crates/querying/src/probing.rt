// The places of a key one after the other, without a list of them: place i is the first or the second place, by turns, of
// level i / 2.
ghost use Rattle.std.specs.Prelude.{◌≡◌, ◌*◌, ◌≤◌, ◌<◌, length};
ghost use Rattle.rules.specs.Words.{GoodState, levels_in_use};
ghost use Rattle.querying.specs.Turns.{nth_place, fresh};

use reading::levels::level_count;
use reading::places::place_in_use;
use rules::{Hashes, Place, State};

// Two places in each level in use.
pub fn place_count(s: State) -> usize
    ensures { (result ≡ 2 * length (levels_in_use s)) × (result ≤ 6) }
{
    2 * level_count(s)
}

pub fn nth_place(s: State, x: Hashes, i: usize) -> Place
    requires { GoodState 20 s × (i < 2 * length (levels_in_use s)) }
    ensures { result ≡ nth_place s x i }
{
    if i % 2 == 0 {
        return place_in_use(x.first, s, i / 2);
    }
    place_in_use(x.second, s, i / 2)
}

// "first place, then second if different": whether place i, a bucket, is not the place before it again.
pub fn is_fresh(i: usize, bucket: usize, last: usize) -> bool
    ensures { result ≡ fresh i bucket last }
{
    if i % 2 == 0 {
        return true;
    }
    last != bucket
}
