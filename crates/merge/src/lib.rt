// What a merge of all runs keeps of each while records are taken one by one: its next key and the one after it, filled at the start and renewed
// where a record is taken. Of a tray with one run nothing is kept.
#![tactic(auto)]

pub mod merging;

ghost use Rattle.std.specs.Prelude.{◌≡◌, ◌+◌, ◌<◌, get_or};
ghost use Rattle.tray.specs.Frame.{run_count, count_of, run_bytes};
ghost use Rattle.index.specs.Scan.{raise};
ghost use Rattle.merge_lead.specs.Heads.{key_or};
ghost use Rattle.merge_lead.specs.Heads.Leads.{Bare, Heading};

use merge_lead::Heads;
use tray::run::key_at;
use tray::{Place, RunNo, Tray};

// The key at a place of a run, or the highest number past its end.
pub fn key_or(tray: &Tray, r: RunNo, p: Place) -> u64
    requires { r.0 < run_count tray.now.bytes.now }
    ensures { result ≡ key_or (run_bytes tray.now.bytes.now r.0) (count_of tray.now.bytes.now r.0) p.0 }
{
    if p.0 < tray.count(r) {
        key_at(tray.run(r), p)
    } else {
        u64::MAX
    }
}

// The key after a place of a run, or the highest number past its end.
fn key_after(tray: &Tray, r: RunNo, p: Place) -> u64
    requires { r.0 < run_count tray.now.bytes.now }
    ensures { result ≡ key_or (run_bytes tray.now.bytes.now r.0) (count_of tray.now.bytes.now r.0) (p.0 + 1) }
{
    if p.0 < tray.count(r) {
        key_or(tray, r, Place(p.0 + 1))
    } else {
        u64::MAX
    }
}

// All that is kept of the runs. It is filled in its place: returned, it would be copied.
pub fn fill_heads(tray: &Tray, places: &[u16; 63], heads: &mut Heads)
    requires { Bare heads.old }
    ensures { Heading tray.now places.now heads.new }
{
    for r in 0..tray.runs {
        let i = usize::from(r);
        let p = Place(places[i]);
        heads.keys[i] = key_or(tray, RunNo(r), p);
        heads.nexts[i] = key_after(tray, RunNo(r), p);
    }
    for b in 0..8 {
        heads.keep(63, b);
    }
}

// The next record of a run taken.
pub fn advance(tray: &Tray, r: RunNo, places: &mut [u16; 63], heads: &mut Heads)
    requires heading { Heading tray.now places.old heads.old }
    requires r_bound { (r.0 < run_count tray.now.bytes.now) × (get_or places.old r.0 0 < count_of tray.now.bytes.now r.0) }
    ensures places_after { places.new ≡ raise places.old r.0 }
    ensures heading_2 { Heading tray.now places.new heads.new }
{
    let i = usize::from(r.0);
    let p = places[i] + 1;
    heads.keys[i] = heads.nexts[i];
    heads.nexts[i] = key_after(tray, r, Place(p));
    places[i] = p;
    heads.keep(tray.runs, r.0 / 8);
}
