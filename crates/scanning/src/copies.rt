// Two slots with one key, in the order of slots, and how many such pairs a scan has met.
ghost use Rattle.std.specs.Prelude.{◌≡◌};
ghost use Rattle.scanning.specs.Copying.{in_order, same_slot};
ghost use Rattle.scanning.specs.declared.copies.Scan.TheVariants.{Clear};
ghost use Rattle.scanning.specs.Scans.{met_of};

use rules::Slot;

// What a scan has met: no key in two slots; one pair of slots with one key; or a second pair, or a slot that is in no
// place of its key.
#[derive(Clone, Copy)]
pub enum Scan {
    Clear,
    Pair(Slot, Slot),
    Spoilt,
}

// Whether two slots are one. A bucket belongs to one level alone, so the levels are not compared. The derived `==` would compare them, and answer
// otherwise for two slots of which one has a wrong level.
#[tactic(auto, unfolding(crate::specs::Copying::same_slot))]
pub fn is_same(x: Slot, y: Slot) -> bool
    ensures { result ≡ same_slot x y }
{
    x.bucket == y.bucket && x.slot == y.slot
}

// "by top, bottom, interim, then bucket and slot ascending", which is the order of the fields of a slot
#[tactic(auto, unfolding(crate::specs::Copying::in_order, crate::specs::Copying::is_before))]
fn pair(x: Slot, y: Slot) -> Scan
    ensures { result ≡ met_of Clear (in_order x y) }
{
    if x < y {
        return Scan::Pair(x, y);
    }
    Scan::Pair(y, x)
}

// One pair more.
pub fn met(found: Scan, x: Slot, y: Slot) -> Scan
    ensures { result ≡ met_of found (in_order x y) }
{
    match found {
        Scan::Clear => pair(x, y),
        Scan::Pair(_, _) => Scan::Spoilt,
        Scan::Spoilt => Scan::Spoilt,
    }
}
