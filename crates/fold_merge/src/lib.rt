// The runs a to b merged: where each record that is left stands in the tray. The other runs count as read to their ends.
#![tactic(auto)]

pub mod keep;

ghost use Rattle.std.specs.Prelude.{◌≡◌, ◌+◌, ◌-◌, ◌<◌, length, get_or};
ghost use Rattle.number.specs.Big.{Bytes};
ghost use Rattle.tray.specs.Frame.{run_count, count_of, start_of};
ghost use Rattle.tray.specs.Check.{Sound};
ghost use Rattle.tray.specs.Meaning.{runs_of};
ghost use Rattle.index.specs.Scan.{raise};
ghost use Rattle.merge_lead.specs.Heads.{Ended};
ghost use Rattle.merge_lead.specs.Heads.Leads.{Heading};
ghost use Rattle.fold_merge.specs.Folding.{between, merged_run, merge_left, next_at, noted, Noted, Folding};

use crate::keep::{fresh, note, skip_runs};
use merge::{advance, fill_heads};
use merge_lead::Heads;
use tray::{RunNo, Tray};

// Neighbouring runs of a sound tray: those from a up to b.
#[derive(Clone, Copy)]
pub struct Neighbours<'a> {
    pub tray: Tray<'a>,
    pub a: RunNo,
    pub b: RunNo,
    ghost holds: { Folding tray a.0 b.0 },
}

impl<'a> Neighbours<'a> {
    // How many runs the tray has when these are one.
    pub fn left(&self) -> u8
        ensures { result ≡ run_count self.now.tray.bytes.now - (self.now.b.0 - self.now.a.0) }
    {
        self.tray.runs - (self.b.0 - self.a.0)
    }

    // The records of the runs before them.
    pub fn before(&self) -> &'a [u8]
        ensures { result.now ≡ between (start_of self.now.tray.bytes.now 0) (start_of self.now.tray.bytes.now self.now.a.0) self.now.tray.bytes.now }
    {
        let t = self.tray.bytes;
        let x = self.tray.starts[0];
        let y = self.tray.starts[usize::from(self.a.0)];
        &t[x..y]
    }

    // The records of the runs after them.
    pub fn after(&self) -> &'a [u8]
        ensures { result.now
            ≡ between (start_of self.now.tray.bytes.now (self.now.b.0 + 1)) (length self.now.tray.bytes.now) self.now.tray.bytes.now }
    {
        let t = self.tray.bytes;
        let z = self.tray.starts[usize::from(self.b.0) + 1];
        &t[z..]
    }
}

// The next record of a run noted as number n and taken.
fn take_next(
    tray: &Tray,
    r: RunNo,
    n: usize,
    places: &mut [u16; 63],
    heads: &mut Heads,
    kept: &mut [usize; 4096],
)
    requires heading { Heading tray.now places.old heads.old }
    requires r_bound { (r.0 < run_count tray.now.bytes.now) × (get_or places.old r.0 0 < count_of tray.now.bytes.now r.0) }
    ensures kept_after { kept.new ≡ noted kept.old n (next_at tray.now.bytes.now places.old r.0) }
    ensures places_after { places.new ≡ raise places.old r.0 }
    ensures heading_2 { Heading tray.now places.new heads.new }
{
    let i = usize::from(r.0);
    note(kept, n, tray.starts[i] + 25 * usize::from(places[i]));
    advance(tray, r, places, heads);
}

// All records of the merge of what is left: how many. Record after record is taken in the order of the view, and one with the key of the record
// before it is not counted, so that the next one is noted in its place. Runs from `end` on are not looked at.
fn keep_all(
    tray: &Tray,
    end: u8,
    places: &mut [u16; 63],
    heads: &mut Heads,
    kept: &mut [usize; 4096],
) -> usize
    requires sound { Bytes tray.now.bytes.now × Sound tray.now.bytes.now }
    requires ended { Ended tray.now.bytes.now places.old end }
    requires heading { Heading tray.now places.old heads.old }
    ensures { Noted tray.now.bytes.now (merge_left tray.now.bytes.now places.old) kept.new result }
{
    let mut n: usize = 0;
    let mut last: u64 = 0;
    while let Some(lead) = heads.next(tray, places, end) {
        take_next(tray, RunNo(lead.run), n, places, heads, kept);
        n += fresh(n, last, lead.key);
        last = lead.key;
    }
    n
}

// The records of neighbouring runs made one: how many.
pub fn merge_runs(runs: &Neighbours, kept: &mut [usize; 4096]) -> usize
    ensures { Noted runs.now.tray.bytes.now (merged_run runs.now.a.0 runs.now.b.0 (runs_of runs.now.tray.bytes.now)) kept.new result }
{
    let tray = &runs.tray;
    let a = usize::from(runs.a.0);
    let b = usize::from(runs.b.0);
    let mut places = [0u16; 63];
    skip_runs(&tray.counts, 0, a, &mut places);
    skip_runs(&tray.counts, b + 1, usize::from(tray.runs), &mut places);
    let mut heads = Heads::new();
    fill_heads(tray, &places, &mut heads);
    keep_all(tray, runs.b.0 + 1, &mut places, &mut heads, kept)
}
