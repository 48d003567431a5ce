// The records of a segment: their marks, and the last key given back where it does not fit.
#![tactic(auto)]

ghost use Rattle.std.specs.Prelude.{◌≡◌, cond, ◌-◌, ◌≤◌, eqb};
ghost use Rattle.build_marks.specs.Code.{old_mark, other_key, stop, back, Selecting};

// The mark of a gone record. A mark is a bit of the selector: as a product with a bool it is no plainer, here and below.
pub fn gone_mark(kind: u8) -> u8
    ensures { result ≡ cond (eqb kind 0) 0 64 }
{
    if kind == 0 { 0 } else { 64 }
}

// The mark of a record after one with key `last`: it is old where it has that key.
#[tactic(auto, unfolding(crate::specs::Code::old_mark))]
pub fn old_mark(last: u64, key: u64) -> u8
    ensures { result ≡ old_mark last key }
{
    if last == key { 128 } else { 0 }
}

// Another key: the first record of a segment is not old.
#[tactic(auto, unfolding(crate::specs::Code::other_key))]
pub fn other_key(key: u64) -> u64
    ensures { result ≡ other_key key }
{
    if key == 0 { 1 } else { 0 }
}

// The last key's records given back: where they began.
pub fn cut_back(seg: &[u8], from: usize, at: usize, places: &mut [u16; 63]) -> usize
    requires { Selecting seg.now from at }
    ensures places_after { stop result places.new ≡ back seg.now from (at - from) places.old }
    ensures bounds { (from ≤ result) × (result ≤ at) }
{
    for i in (from..at).rev() {
        let v = seg[i];
        let r = usize::from(v % 64);
        places[r] = places[r].saturating_sub(1);
        if v < 128 {
            return i;
        }
    }
    from
}
