// Which records a merge of some runs keeps, and where they are noted.
ghost use Rattle.std.specs.Prelude.{◌≡◌, cond, ◌≤◌, ltb};
ghost use Rattle.fold_merge.specs.Folding.{new_from, noted, Skips};

// The runs from one up to another read to their ends.
pub fn skip_runs(counts: &[u16; 63], from: usize, to: usize, places: &mut [u16; 63])
    requires { (from ≤ to) × (to ≤ 63) }
    ensures { Skips counts.now places.old from to places.new }
{
    places[from..to].copy_from_slice(&counts[from..to]);
}

// Notes where record n stands. Past 4,096 records the run is too long, and they are only counted.
#[tactic(auto, using(crate::proofs::Noting::noting))]
pub fn note(kept: &mut [usize; 4096], n: usize, at: usize)
    ensures { kept.new ≡ noted kept.old n at }
{
    if n < 4096 {
        kept[n] = at;
    }
}

// Whether a key is new after n records of which the last has key `last`: 1, or 0. A number, since it cannot be predicted which.
pub fn fresh(n: usize, last: u64, key: u64) -> usize
    ensures value { result ≡ cond (ltb key (new_from n last)) 0 1 }
    ensures upper_bound { result ≤ 1 }
{
    usize::from(n == 0 || last < key)
}
