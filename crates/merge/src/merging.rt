// The records of all runs in the order of the view, one by one.
ghost use Rattle.std.specs.Prelude.{◌≡◌, ℕ, List, ◌<◌, get_or};
ghost use Rattle.tray.specs.declared.Tray.{Tray};
ghost use Rattle.tray.specs.Frame.{run_count, count_of};
ghost use Rattle.index.specs.Scan.{next_in, raise};
ghost use Rattle.merge_lead.specs.Heads.Leads.{Heading, LeastKey, Comes};
ghost use Rattle.merge.specs.One.{IsOne};

use crate::{advance, key_or};
use merge_lead::{Heads, Lead};
use tray::run::{key_at, kind_at};
use tray::{Place, RunNo, Tray};

// A merge: what it keeps of a tray's runs beside how far each has been read.
pub trait Merging {
    // What is kept fits the tray and the places.
    ghost fits: { Tray → List ℕ → Self → Type 0 };

    // The least next key of all runs, or the highest number where none has one.
    fn least_key(&self, tray: &Tray, places: &[u16; 63]) -> u64
        requires { fits tray.now places.now self.now }
        ensures { LeastKey tray.now.bytes.now tray.now.runs places.now result };

    // The run that comes next, with its key, or none.
    fn lead(&self, tray: &Tray, places: &[u16; 63]) -> Option<Lead>
        requires { fits tray.now places.now self.now }
        ensures { Comes tray.now places.now result };

    // The next record of a run taken: its kind.
    fn take(&mut self, tray: &Tray, r: RunNo, places: &mut [u16; 63]) -> u8
        requires fits { fits tray.now places.old self.old }
        requires r_bound { (r.0 < run_count tray.now.bytes.now) × (get_or places.old r.0 0 < count_of tray.now.bytes.now r.0) }
        ensures kind { result ≡ (next_in tray.now.bytes.now places.old r.0).kind }
        ensures places_after { places.new ≡ raise places.old r.0 }
        ensures fits_after { fits tray.now places.new self.new };
}

impl Merging for Heads {
    ghost fits = { λ tray places heads. Heading tray places heads };

    fn least_key(&self, tray: &Tray, _places: &[u16; 63]) -> u64 {
        self.leader(tray.runs).key
    }

    fn lead(&self, tray: &Tray, places: &[u16; 63]) -> Option<Lead> {
        self.next(tray, places, tray.runs)
    }

    fn take(&mut self, tray: &Tray, r: RunNo, places: &mut [u16; 63]) -> u8 {
        let kind = kind_at(tray.run(r), Place(places[usize::from(r.0)]));
        advance(tray, r, places, self);
        kind
    }
}

// The merge of a tray with one run, which is kept: its records come as they stand.
#[derive(Clone, Copy)]
pub struct One<'a> {
    run: &'a [u8],
    records: u16,
}

impl<'a> One<'a> {
    // The merge of a tray's only run.
    pub fn of(tray: &Tray<'a>) -> One<'a>
        requires { tray.now.runs ≡ 1 }
        ensures { IsOne tray.now result }
    {
        One {
            run: tray.run(RunNo(0)),
            records: tray.counts[0],
        }
    }
}

impl<'a> Merging for One<'a> {
    ghost fits = { λ tray places one. IsOne tray one };

    fn least_key(&self, tray: &Tray, places: &[u16; 63]) -> u64 {
        key_or(tray, RunNo(0), Place(places[0]))
    }

    fn lead(&self, _tray: &Tray, places: &[u16; 63]) -> Option<Lead> {
        let p = places[0];
        if p < self.records {
            return Some(Lead {
                key: key_at(self.run, Place(p)),
                run: 0,
            });
        }
        None
    }

    fn take(&mut self, _tray: &Tray, _r: RunNo, places: &mut [u16; 63]) -> u8 {
        let p = places[0];
        places[0] = p + 1;
        kind_at(self.run, Place(p))
    }
}
