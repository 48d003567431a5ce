// The unmarked records of a segment gathered before they are looked at.
ghost use Rattle.std.specs.Prelude.{cond, ◌≡◌, ◌+◌, ◌≤◌, ◌<◌, length};
ghost use Rattle.walk.specs.Reads.{unmarked};
ghost use Rattle.list.specs.Gathers.{Gathers};

use index::SegmentNo;
use tray::Place;
use walk::Indexed;
use walk::cursor::Lost;

// A selector with neither mark as 1, any other as 0: computed, since the marks cannot be predicted and so are not branched on.
pub fn is_unmarked(v: u8) -> usize
    ensures { result ≡ cond (unmarked v) 1 0 }
{
    usize::from(v < 64)
}

// How many records stand gathered, and where the walk of the segment is lost, if it is.
#[derive(Clone, Copy)]
pub struct Gathered {
    pub count: usize,
    pub stop: Result<(), Lost>,
}

// The unmarked records of segment g from a selector on, to its end or to where the walk is lost: where each stands in the tray, after so many
// gathered before. The places are lent, and moved where they stand, so that none are copied.
pub fn gather(
    indexed: &Indexed,
    g: SegmentNo,
    from: usize,
    places: &mut [Place; 63],
    before: usize,
    ats: &mut [usize],
) -> Gathered
    requires segment { g.0 < indexed.now.index.segments }
    requires selector { from ≤ indexed.now.index.size }
    requires room { indexed.now.index.size + before ≤ from + length ats.old }
    ensures { Gathers indexed.now.tray.bytes.now indexed.now.index.bytes.now indexed.now.index.size g.0 from places.old before ats.old
        result ats.new }
{
    let index = &indexed.index;
    let tray = &indexed.tray;
    let first = index.selectors_at(g);
    let mut k = before;
    for s in from..usize::from(index.size) {
        let v = index.bytes[first + s];
        if v == 63 {
            continue;
        }
        let r = v % 64;
        let i = usize::from(r);
        if index.runs <= r || tray.counts[i] <= places[i].0 {
            return Gathered {
                count: k,
                stop: Err(Lost {
                    segment: g.0,
                    selector: s as u32,
                }),
            };
        }
        let q = places[i].0;
        ats[k] = tray.starts[i] + 25 * usize::from(q);
        k += is_unmarked(v);
        places[i] = Place(q + 1);
    }
    Gathered {
        count: k,
        stop: Ok(()),
    }
}
