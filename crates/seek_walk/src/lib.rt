// Seek: the first record at or above a key where the walk stays.
#![tactic(auto)]

ghost use Rattle.std.specs.Prelude.{◌≡◌, ◌-◌, ◌<◌};
ghost use Rattle.tray.specs.Frame.{run_count, count_of};
ghost use Rattle.walk.specs.Walk.{walk_segments};
ghost use Rattle.walk.specs.Reads.{seek_visit, seek};
ghost use Rattle.walk.specs.Code.{sought_of};
ghost use Rattle.walk.specs.Code.Seek.{stays_at};

use index::SegmentNo;
use tray::run::key_at;
use tray::{Place, RunNo, Tray};
use walk::Indexed;
use walk::cursor::{Cursor, Lost, Sighting, load};
use walk::start::start_at;

// Whether the walk for a key stays at a record: its selector is unmarked, and its key at or above the key asked for.
fn stays(tray: &Tray, v: u8, p: Place, key: u64) -> bool
    requires { (v < 64 → v < run_count tray.now.bytes.now) × (v < 64 → p.0 < count_of tray.now.bytes.now v) }
    ensures { result ≡ stays_at tray.now.bytes.now key v p.0 }
{
    v < 64 && key <= key_at(tray.run(RunNo(v)), p)
}

// The walk for a key from a segment on. It leaves both the selectors and the segments at the first record where it stays.
pub fn seek_from(indexed: &Indexed, from: SegmentNo, key: u64) -> Result<Option<Sighting>, Lost>
    ensures { sought_of result ≡ walk_segments indexed.now.tray.bytes.now indexed.now.index.bytes.now (seek_visit indexed.now.tray.bytes.now key) (indexed.now.index.segments - from.0) from.0 0 }
{
    let index = &indexed.index;
    let tray = &indexed.tray;
    let mut places = [Place(0); 63];
    'walk: {
        for g in from.0..index.segments {
            load(
                index.bytes,
                index.segment_at(SegmentNo(g)),
                index.runs,
                &mut places,
            );
            let first = index.selectors_at(SegmentNo(g));
            for s in 0..index.size {
                let v = index.bytes[first + usize::from(s)];
                if v == 63 {
                    continue;
                }
                let r = v % 64;
                let i = usize::from(r);
                if index.runs <= r || tray.counts[i] <= places[i].0 {
                    break 'walk Err(Lost {
                        segment: g,
                        selector: u32::from(s),
                    });
                }
                let p = places[i];
                if stays(tray, v, p, key) {
                    break 'walk Ok(Some(Sighting {
                        run: RunNo(r),
                        place: p,
                        cursor: Cursor {
                            segment: SegmentNo(g),
                            selector: s,
                            places,
                        },
                    }));
                }
                places[i] = Place(p.0 + 1);
            }
        }
        Ok(None)
    }
}

// The walk for a key from the segment at which it starts.
pub fn seek_for(indexed: &Indexed, key: u64) -> Result<Option<Sighting>, Lost>
    ensures { sought_of result ≡ seek indexed.now.tray.bytes.now indexed.now.index.bytes.now key }
{
    seek_from(indexed, start_at(&indexed.index, key), key)
}
