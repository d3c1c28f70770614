// Sets of slots, one bit a slot. Others make a set and ask it by these functions alone, and never look at its bits.
#![tactic(auto)]

ghost use Rattle.std.specs.Prelude.{◌≡◌, ◌<◌};
ghost use Rattle.limits.specs.Limits.{holder_codes};
ghost use Rattle.slot_sets.specs.SlotSets.{no_slots, every_slot, with_slot, has_slot};

// Some of the slots that place holders have codes for.
#[derive(Clone, Copy)]
pub struct SlotSet {
    pub bits: u64,
}

// No slot.
pub fn no_slots() -> SlotSet
    ensures { result ≡ no_slots }
{
    SlotSet { bits: 0 }
}

// Every slot.
pub fn every_slot() -> SlotSet
    ensures { result ≡ every_slot }
{
    SlotSet { bits: u64::MAX }
}

// The set with slot k besides.
pub fn with_slot(x: SlotSet, k: u8) -> SlotSet
    requires { k < holder_codes }
    ensures { result ≡ with_slot x k }
{
    SlotSet {
        bits: x.bits | (1u64 << k),
    }
}

// Whether slot k is in the set.
pub fn has_slot(x: SlotSet, k: u8) -> bool
    requires { k < holder_codes }
    ensures { result ≡ has_slot x k }
{
    (x.bits >> k) % 2 == 1
}
