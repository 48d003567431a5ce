// Next: past the current selector, and on to the first visible record.
ghost use Rattle.std.specs.Prelude.{◌≡◌, ◌%◌, ◌<◌, get_or};
ghost use Rattle.walk.specs.Walk.{walk_from};
ghost use Rattle.walk.specs.Reads.{next as next_of};
ghost use Rattle.walk.specs.Code.{placed, spot_of};
ghost use Rattle.answers.specs.Seek.{seek_told};
ghost use Rattle.next.specs.Next.{Going, visible_visit, passed_by};

use answers::Stand;
use index::{Index, SegmentNo};
use refusal::Refusal;
use tray::frame::count_of;
use tray::{Place, RunNo};
use walk::cursor::{Cursor, load};

// The first visible record past the cursor's own selector, which the cursor passes by its moves, or the end. The walk reads counts and index bytes, and
// no record. A count is read in the tray itself: next then asks for no other place of the table of runs, and the compiler leaves the table out. The
// places stand apart from the moved cursor while it walks, and are copied once more, where it ends.
#[inline(always)]
fn first_from(t: &[u8], index: &Index, from: &Cursor, here: u8) -> Result<Stand, Refusal>
    requires going { Going t.now index.now.bytes.now index.now.runs index.now.size index.now.segments }
    requires inside { (from.now.segment.0 < index.now.segments) × (from.now.selector < index.now.size) }
    requires here_bound { (here ≡ 63 → ⊥) → (here % 64 < 63) × ((get_or from.now.places (here % 64) (placed 0)).0 < 65535) }
    ensures { result ≡ seek_told index.now.bytes.now (walk_from t.now index.now.bytes.now visible_visit (passed_by here (spot_of from.now)) 0) }
{
    // One move takes the other's place: chosen between two arms, the moved cursor would be copied again.
    let mut at = from.past_gap();
    if here != 63 {
        at = from.past_record(RunNo(here % 64));
    }
    let start = at.segment.0;
    let mut low = at.selector;
    let mut places = at.places;
    'walk: {
        for g in start..index.segments {
            if start < g {
                load(
                    index.bytes,
                    index.segment_at(SegmentNo(g)),
                    index.runs,
                    &mut places,
                );
                low = 0;
            }
            let first = index.selectors_at(SegmentNo(g));
            for s in low..index.size {
                let v = index.bytes[first + usize::from(s)];
                if v == 63 {
                    continue;
                }
                let r = v % 64;
                let i = usize::from(r);
                if index.runs <= r || count_of(t, RunNo(r)) <= places[i].0 {
                    break 'walk Err(Refusal::Lost(g, u32::from(s)));
                }
                let p = places[i];
                let unmarked = v < 64;
                if unmarked {
                    let stands = Cursor {
                        segment: SegmentNo(g),
                        selector: s,
                        places,
                    };
                    break 'walk Ok(Stand::Found(RunNo(r), p, stands));
                }
                places[i] = Place(p.0 + 1);
            }
        }
        Ok(Stand::End(Cursor::end(index.segments)))
    }
}

// Next from a cursor that is not the end: the current selector is judged by the loss rule, marked or not, and passed by the cursor's own moves.
#[inline(always)]
pub fn next_from(t: &[u8], index: &Index, from: &Cursor) -> Result<Stand, Refusal>
    requires going { Going t.now index.now.bytes.now index.now.runs index.now.size index.now.segments }
    requires inside { (from.now.segment.0 < index.now.segments) × (from.now.selector < index.now.size) }
    ensures { result ≡ seek_told index.now.bytes.now (next_of t.now index.now.bytes.now (spot_of from.now)) }
{
    let x = index.bytes;
    let g = from.segment;
    let s = from.selector;
    let v = x[index.selectors_at(g) + usize::from(s)];
    if v != 63 {
        let r = v % 64;
        let i = usize::from(r);
        if index.runs <= r || count_of(t, RunNo(r)) <= from.places[i].0 {
            return Err(Refusal::Lost(g.0, u32::from(s)));
        }
    }
    first_from(t, index, from, v)
}
