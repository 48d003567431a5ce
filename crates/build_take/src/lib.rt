// The records of a segment, taken one by one in the order of the view and written as selectors.
#![tactic(auto)]

ghost use Rattle.std.specs.Prelude.{◌≤◌, length};
ghost use Rattle.build_marks.specs.Code.{other_key, Stopped, Fills};

use build_marks::{cut_back, gone_mark, old_mark, other_key};
use merge::merging::Merging;
use tray::{RunNo, Tray};

// Where records end, and the key of the last one.
#[derive(Clone, Copy)]
pub struct Reach {
    pub at: usize,
    pub last: u64,
}

// Record after record written from a place on, as long as there is one and it ends by `to`.
fn put_selectors<M: Merging>(
    tray: &Tray,
    merge: &mut M,
    seg: &mut [u8],
    from: usize,
    to: usize,
    first: u64,
    places: &mut [u16; 63],
) -> Reach
    requires fits { M.fits tray.now places.old merge.old }
    requires bounds { (from ≤ to) × (to ≤ length seg.old) }
    ensures stopped { Stopped tray.now.bytes.now tray.now.runs places.old seg.old from first to places.new seg.new result.at result.last }
    ensures fits_after { M.fits tray.now places.new merge.new }
{
    let mut last = first;
    for at in from..to {
        let Some(lead) = merge.lead(tray, places) else {
            return Reach { at, last };
        };
        let kind = merge.take(tray, RunNo(lead.run), places);
        seg[at] = lead.run + (old_mark(last, lead.key) + gone_mark(kind));
        last = lead.key;
    }
    Reach { at: to, last }
}

// Key after key written from a place on, as long as all records of each end by `to`: where they end.
pub fn put_keys<M: Merging>(
    tray: &Tray,
    merge: &mut M,
    seg: &mut [u8],
    from: usize,
    to: usize,
    anchor: u64,
    places: &mut [u16; 63],
) -> usize
    requires fits { M.fits tray.now places.old merge.old }
    requires bounds { (from ≤ to) × (to ≤ length seg.old) }
    ensures fills { Fills tray.now.bytes.now tray.now.runs places.old seg.old from (other_key anchor) to places.new seg.new result }
    ensures lower_bound { (from ≤ result) × (result ≤ to) }
{
    let s = put_selectors(tray, merge, seg, from, to, other_key(anchor), places);
    if let Some(lead) = merge.lead(tray, places) {
        if lead.key == s.last {
            return cut_back(seg, from, s.at, places);
        }
    }
    s.at
}
