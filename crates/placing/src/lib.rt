// "Placing uses top and bottom only": the slot that a key which stands nowhere would get.
#![tactic(auto)]

mod buckets;
mod moves;
pub mod room;

ghost use Rattle.std.specs.Prelude.{◌≡◌};
ghost use Rattle.rules.specs.Choice.{first_of};
ghost use Rattle.rules.specs.Places.{hashes_of};
ghost use Rattle.rules.specs.Placing.{move_of, candidates, placing as placing_of};
ghost use Rattle.rules.specs.Answers.{PlacingTells};
ghost use Rattle.reading.specs.Gates.{Headed};
ghost use Rattle.reading.specs.Within.{PlacingWithin};
ghost use Rattle.placing.specs.Search.{optional};

use moves::moving;
use room::room;
use rules::{Hashes, Header, Placing};

// "If all are full, one move." "Otherwise there is no place." It stands between `placing` and the search so that the hashes are
// handed through memory here alone; the header is there for the promise.
fn one_move(t: &[u64], h: Header, x: Hashes) -> Placing
    requires { Headed t.now h }
    ensures { (optional result ≡ first_of (move_of t.now h) (candidates t.now h x)) × PlacingWithin t.now result }
{
    let found = moving(t, x);
    if let Placing::Move(from, to) = found {
        return Placing::Move(from, to);
    }
    Placing::Nowhere
}

// "In the top, the place with fewer taken slots (tie: first place), lowest free slot. If both are full, the same in the bottom.
// If all are full, one move." The key's hashes x are handed in: whoever asks has them already. A free slot is written out as the
// answer, and no enum copied: so an insert keeps it in registers.
pub fn placing(t: &[u64], h: Header, key: u64, x: Hashes) -> Placing
    requires { Headed t.now h × (x ≡ hashes_of h key) }
    ensures { PlacingTells result (placing_of t.now h key) × PlacingWithin t.now result }
{
    if let Some(y) = room(t, h, x, 0) {
        return Placing::Free(y);
    }
    if let Some(y) = room(t, h, x, 1) {
        return Placing::Free(y);
    }
    one_move(t, h, x)
}

// The same for an item that stands in the interim level. A text of its own, for speed: what is asked for in one place alone becomes
// part of the call that asks, and so an insert hands its placing through no memory.
pub fn interim_placing(t: &[u64], h: Header, key: u64, x: Hashes) -> Placing
    requires { Headed t.now h × (x ≡ hashes_of h key) }
    ensures { PlacingTells result (placing_of t.now h key) × PlacingWithin t.now result }
{
    if let Some(above) = room(t, h, x, 0) {
        return Placing::Free(above);
    }
    if let Some(below) = room(t, h, x, 1) {
        return Placing::Free(below);
    }
    moving(t, x)
}
