// The check of an index's segments in one pass, about one key comparison a record and no merge.
ghost use Rattle.std.specs.Prelude.{◌≡◌, ◌+◌, ◌*◌, ◌-◌, ◌≤◌, ◌<◌, ◌↔◌, length, IsTrue, All};
ghost use Rattle.index.specs.Layout.{segment_at};
ghost use Rattle.index.specs.Scan.{heads_above, offsets_hold, following, used_up, segment_scan};
ghost use Rattle.index.specs.Scan.Code.{NextPlace, step_of, begin_of, trailed, told};

use crate::selector::{may_begin, may_follow};
use index::{Index, SegmentNo};
use number::BigEndian;
use tray::{Place, RunNo, Tray};

// Whether the offsets of the segment at a byte are the places.
fn offsets_hold(x: &[u8], at: usize, h: u8, places: &[u16; 63]) -> bool
    requires h_bound { h ≤ 63 }
    requires h_in_bounds { at + 8 + 2 * h ≤ length x.now }
    ensures { result ≡ offsets_hold x.now at places.now h }
{
    for r in 0..usize::from(h) {
        if u16::read(x, at + 8 + 2 * r) != places[r] {
            return false;
        }
    }
    true
}

// Whether each of some bytes is a placeholder.
fn only_placeholders(part: &[u8]) -> bool
    ensures { IsTrue result ↔ All (λ v. v ≡ 63) part.now }
{
    part.iter().all(|v| *v == 63)
}

// The place of a run's next record, where the tray has that run and the run a record left.
fn next_place(tray: &Tray, places: &[u16; 63], r: RunNo) -> Option<Place>
    ensures { NextPlace tray.now.bytes.now tray.now.runs places.now r.0 result }
{
    if r.0 < tray.runs {
        let p = places[usize::from(r.0)];
        if p < tray.count(r) {
            return Some(Place(p));
        }
    }
    None
}

// Whether every run's next key, if it has one, is above the last one.
fn heads_above(tray: &Tray, places: &[u16; 63], last: u64) -> bool
    ensures { result ≡ heads_above tray.now.bytes.now places.now last tray.now.runs }
{
    for r in 0..tray.runs {
        if let Some(p) = next_place(tray, places, RunNo(r)) {
            let e = tray.head(RunNo(r), p);
            if e.key <= last {
                return false;
            }
        }
    }
    true
}

// Whether every run has been read to its end.
pub fn used_up(tray: &Tray, places: &[u16; 63]) -> bool
    ensures { result ≡ used_up tray.now.bytes.now places.now tray.now.runs }
{
    let h = usize::from(tray.runs);
    places[..h] == tray.counts[..h]
}

// One selector after a record with key `last` of run `before`: where it may follow, its record is read, and its key is the answer. This and
// `check_first` are no one function that takes the test as a closure: its contract, about each result of any test, is longer than what they share.
fn check_next(tray: &Tray, places: &mut [u16; 63], v: u8, last: u64, before: u8) -> Option<u64>
    requires { before < 64 }
    ensures { trailed result places.new ≡ step_of tray.now.bytes.now tray.now.runs places.old v last before }
{
    let r = RunNo(v % 64);
    let p = next_place(tray, places, r)?;
    let e = tray.head(r, p);
    if may_follow(last, before, v, e) {
        places[usize::from(r.0)] = p.0 + 1;
        return Some(e.key);
    }
    None
}

// The first selector of a segment: where it may begin and its record has the anchor's key, the record is read, and its key is the answer.
fn check_first(tray: &Tray, places: &mut [u16; 63], v: u8, anchor: u64) -> Option<u64>
    ensures { trailed result places.new ≡ begin_of tray.now.bytes.now tray.now.runs places.old v anchor }
{
    let r = RunNo(v % 64);
    let p = next_place(tray, places, r)?;
    let e = tray.head(r, p);
    if may_begin(v, e) && anchor == e.key {
        places[usize::from(r.0)] = p.0 + 1;
        return Some(e.key);
    }
    None
}

// Some selectors after a record with key `first` of run `first_run`: the key of the last record, where they are right.
fn check_following(
    tray: &Tray,
    selectors: &[u8],
    places: &mut [u16; 63],
    first: u64,
    first_run: u8,
) -> Option<u64>
    requires { first_run < 64 }
    ensures { trailed result places.new ≡ following tray.now.bytes.now tray.now.runs selectors.now (length selectors.now) 0 places.old first first_run }
{
    let mut last = first;
    let mut before = first_run;
    for (i, &v) in selectors.iter().enumerate() {
        if v == 63 {
            return only_placeholders(&selectors[i + 1..]).then_some(last);
        }
        last = check_next(tray, places, v, last, before)?;
        before = v % 64;
    }
    Some(last)
}

// One segment: its offsets, its first selector, those that follow, and at their end every run's next key above the last one.
pub fn check_segment(tray: &Tray, index: &Index, g: SegmentNo, places: &mut [u16; 63]) -> bool
    requires runs { index.now.runs ≡ tray.now.runs }
    requires bounds { (g.0 < index.now.segments) × (0 < index.now.size) }
    ensures { told result places.new ≡ segment_scan tray.now.bytes.now tray.now.runs index.now.bytes.now index.now.size (segment_at tray.now.runs index.now.size g.0) places.old }
{
    let x = index.bytes;
    let at = index.segment_at(g);
    if !offsets_hold(x, at, tray.runs, places) {
        return false;
    }
    let from = at + 8 + 2 * usize::from(tray.runs);
    let to = from + usize::from(index.size);
    let v = x[from];
    let Some(first) = check_first(tray, places, v, u64::read(x, at)) else {
        return false;
    };
    let Some(last) = check_following(tray, &x[from + 1..to], places, first, v % 64) else {
        return false;
    };
    heads_above(tray, places, last)
}
