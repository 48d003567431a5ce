// One segment: its anchor, its offsets, the selectors of its records, and placeholders to its end.
#![tactic(auto)]

ghost use Rattle.std.specs.Prelude.{◌≡◌, ◌+◌, ◌*◌, ◌-◌, ◌≤◌, length, replicate};
ghost use Rattle.number.specs.Big.{put};
ghost use Rattle.build_marks.specs.Code.{offsets_from, Segmented};

use build_take::put_keys;
use merge::fill_heads;
use merge::merging::{Merging, One};
use merge_lead::Heads;
use number::BigEndian;
use tray::Tray;

// The places of h runs as offsets, from byte 8 on.
fn put_offsets(seg: &mut [u8], places: &[u16; 63], h: u8)
    requires { (8 + 2 * h ≤ length seg.old) × (h ≤ 63) }
    ensures { seg.new ≡ put seg.old 8 (offsets_from places.now h 0) }
{
    for r in 0..usize::from(h) {
        places[r].write(seg, 8 + 2 * r);
    }
}

// Placeholders from a place on.
fn put_placeholders(seg: &mut [u8], from: usize)
    requires { from ≤ length seg.old }
    ensures { seg.new ≡ put seg.old from (replicate (length seg.old - from) 63) }
{
    seg[from..].fill(63);
}

// A segment written as a merge of the runs goes on: how many records it has.
fn put_segment<M: Merging>(
    tray: &Tray,
    merge: &mut M,
    d: u8,
    places: &mut [u16; 63],
    seg: &mut [u8],
) -> usize
    requires fits { M.fits tray.now places.old merge.old }
    requires seg_len { length seg.old ≡ 8 + 2 * tray.now.runs + d }
    ensures { Segmented tray.now.bytes.now tray.now.runs d places.old seg.old places.new seg.new result }
{
    let anchor = merge.least_key(tray, places);
    anchor.write(seg, 0);
    put_offsets(seg, places, tray.runs);
    let from = 8 + 2 * usize::from(tray.runs);
    let to = from + usize::from(d);
    let end = put_keys(tray, merge, seg, from, to, anchor, places);
    put_placeholders(seg, end);
    end - from
}

// A segment of several runs, with what a merge keeps of them. A function of its own: one that has these numbers clears them where it begins, and a tray
// of one run has no use for them.
fn write_merged(tray: &Tray, d: u8, places: &mut [u16; 63], seg: &mut [u8]) -> usize
    requires { length seg.old ≡ 8 + 2 * tray.now.runs + d }
    ensures { Segmented tray.now.bytes.now tray.now.runs d places.old seg.old places.new seg.new result }
{
    let mut heads = Heads::new();
    fill_heads(tray, places, &mut heads);
    put_segment(tray, &mut heads, d, places, seg)
}

// The next segment, into its own stretch of the output: how many records it has.
pub fn write_segment(tray: &Tray, d: u8, places: &mut [u16; 63], seg: &mut [u8]) -> usize
    requires { length seg.old ≡ 8 + 2 * tray.now.runs + d }
    ensures { Segmented tray.now.bytes.now tray.now.runs d places.old seg.old places.new seg.new result }
{
    if tray.runs == 1 {
        return put_segment(tray, &mut One::of(tray), d, places, seg);
    }
    write_merged(tray, d, places, seg)
}
