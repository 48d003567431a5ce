// Whether a cursor belongs to an index: it is the end, or each place is the offset plus that run's selectors earlier in the segment.
#![tactic(auto)]

ghost use Rattle.std.specs.Prelude.{◌≡◌, ◌+◌, ◌-◌, ◌≤◌, ◌<◌, length};
ghost use Rattle.index.specs.Layout.{segment_at};
ghost use Rattle.index.specs.Scan.Code.{same_to};
ghost use Rattle.walk.specs.Reads.{places_at, same_places, belongs as belongs_to};
ghost use Rattle.walk.specs.Code.{numbers, spot_of};
ghost use Rattle.walk_cursor.specs.Standing.{none_for, Tallied, wanted_at};

use index::{Index, SegmentNo};
use number::BigEndian;
use std::cmp::Ordering;
use tray::Place;
use walk::cursor::Cursor;

// Whether the places from a run on are all 0: the highest of them is. The compiler compares eight at once.
fn none_from(places: &[Place; 63], from: usize) -> bool
    requires { from ≤ 63 }
    ensures { result ≡ none_for (63 - from) (numbers places.now) from }
{
    let mut top: u16 = 0;
    for p in &places[from..] {
        top = top.max(p.0);
    }
    top == 0
}

// How many of the s selectors from a byte on name each run, marks aside. They are counted where they are lent, so that no count is copied.
fn tally(x: &[u8], first: usize, s: u8, seen: &mut [u8; 64])
    requires { first + s ≤ length x.now }
    ensures { Tallied x.now first s seen.new }
{
    *seen = [0u8; 64];
    for v in &x[first..first + usize::from(s)] {
        seen[usize::from(*v % 64)] += 1;
    }
}

// Whether the places of the tray's runs are as they must be, for a segment and a tally of its selectors.
fn places_hold(index: &Index, g: SegmentNo, seen: &[u8; 64], places: &[Place; 63]) -> bool
    requires { (g.0 < index.now.segments) × (index.now.runs ≤ 63) }
    ensures { result ≡ same_to (numbers places.now) (wanted_at index.now.runs index.now.bytes.now (segment_at index.now.runs index.now.size g.0) seen.now) index.now.runs }
{
    let at = index.segment_at(g);
    for r in 0..usize::from(index.runs) {
        let offset = u16::read(index.bytes, at + 8 + 2 * r);
        if u32::from(places[r].0) != u32::from(offset) + u32::from(seen[r]) {
            return false;
        }
    }
    true
}

// Whether a cursor that is not the end stands at a selector of a segment.
fn stands(index: &Index, g: SegmentNo, s: u8, places: &[Place; 63]) -> bool
    requires { (index.now.runs ≤ 63) × (g.0 < index.now.segments) × (s < index.now.size) }
    ensures { result ≡ same_places (numbers places.now) (places_at index.now.runs index.now.bytes.now g.0 s) }
{
    let mut seen = [0u8; 64];
    tally(index.bytes, index.selectors_at(g), s, &mut seen);
    places_hold(index, g, &seen, places) && none_from(places, usize::from(index.runs))
}

// Whether a cursor belongs to an index.
#[inline(always)]
pub fn belongs(index: &Index, cursor: &Cursor) -> bool
    requires { index.now.runs ≤ 63 }
    ensures { result ≡ belongs_to index.now.runs index.now.bytes.now (spot_of cursor.now) }
{
    let g = cursor.segment;
    let s = cursor.selector;
    match g.0.cmp(&index.segments) {
        Ordering::Less => s < index.size && stands(index, g, s, &cursor.places),
        Ordering::Equal => s == 0 && none_from(&cursor.places, 0),
        Ordering::Greater => false,
    }
}
