// Page: key and value of each visible record from a cursor on, as far as there is room.
#![tactic(auto)]

ghost use Rattle.std.specs.Prelude.{◌≡◌, ◌≤◌};
ghost use Rattle.walk.specs.Code.{spot_of};
ghost use Rattle.list.specs.Page.{so_far, begun, paged_of};
ghost use Rattle.list.specs.Listing.{entry_of, page_of};

use index::SegmentNo;
use list::Listing;
use list::points::{PageEnd, put_all, write_point};
use list::stops::gather;
use tray::{Place, RunNo};
use walk::cursor::{Cursor, Lost};

// The page record by record, from where it enters a segment on, where some are written already. The selector is carried at the width of a place in
// the index: at its own the loop is slower.
// The walks of seek, next and a gathered segment have loops like these: handed over as a closure, what is done at a selector would be lent the
// places, the count and the output at once, and be no plainer.
fn page_on(listing: &Listing, start: SegmentNo, wrote: usize, out: &mut [u8]) -> PageEnd
    requires { listing.now.from.now.segment.0 ≤ start.0 }
    ensures { paged_of result out.new ≡ page_of listing.now (entry_of listing.now start.0) (so_far wrote out.old) }
{
    let index = &listing.indexed.index;
    let tray = &listing.indexed.tray;
    let slots = out.len() / 24;
    let mut count = wrote;
    let mut places = [Place(0); 63];
    'walk: {
        for g in start.0..index.segments {
            let begin = listing.enter(SegmentNo(g), &mut places);
            let first = index.selectors_at(SegmentNo(g));
            for s in usize::from(begin)..usize::from(index.size) {
                let v = index.bytes[first + s];
                if v == 63 {
                    continue;
                }
                let r = v % 64;
                let i = usize::from(r);
                if index.runs <= r || tray.counts[i] <= places[i].0 {
                    break 'walk PageEnd {
                        count,
                        stop: Err(Lost {
                            segment: g,
                            selector: s as u32,
                        }),
                    };
                }
                let p = places[i];
                if v < 64 {
                    if slots <= count {
                        break 'walk PageEnd {
                            count,
                            stop: Ok(Some(Cursor {
                                segment: SegmentNo(g),
                                selector: s as u8,
                                places,
                            })),
                        };
                    }
                    write_point(tray, RunNo(v), p, out, 24 * count);
                    count += 1;
                }
                places[i] = Place(p.0 + 1);
            }
        }
        PageEnd {
            count,
            stop: Ok(None),
        }
    }
}

// The page a segment at a time: a segment's records are gathered first and then written, as long as there is room for them; those of the last
// segment are written one by one, from where the page enters it. The places are moved where they stand: to copy them at each segment costs more
// than to find out again where the last one is entered.
fn page_segments(listing: &Listing, out: &mut [u8]) -> PageEnd
    requires { listing.now.indexed.now.index.size ≤ 128 }
    ensures { paged_of result out.new ≡ page_of listing.now (spot_of listing.now.from.now) (so_far 0 out.old) }
{
    let indexed = listing.indexed;
    let room = out.len() / 24;
    let mut ats = [0usize; 128];
    let mut count: usize = 0;
    let mut places = [Place(0); 63];
    for g in listing.from.segment.0..indexed.index.segments {
        let begin = listing.enter(SegmentNo(g), &mut places);
        let gathered = gather(
            indexed,
            SegmentNo(g),
            usize::from(begin),
            &mut places,
            0,
            &mut ats,
        );
        let k = gathered.count;
        if room < count + k {
            return page_on(listing, SegmentNo(g), count, out);
        }
        put_all(indexed.tray.bytes, &ats[..k], count, out);
        count += k;
        if let Err(lost) = gathered.stop {
            return PageEnd {
                count,
                stop: Err(lost),
            };
        }
    }
    PageEnd {
        count,
        stop: Ok(None),
    }
}

// The page of a listing. Where there is no room for a segment, there is nothing to gather; no index that is opened has segments of more than 128.
pub fn page_from(listing: &Listing, out: &mut [u8]) -> PageEnd
    ensures { paged_of result out.new ≡ page_of listing.now (spot_of listing.now.from.now) (begun out.old) }
{
    let size = usize::from(listing.indexed.index.size);
    if size <= 128 && size <= out.len() / 24 {
        return page_segments(listing, out);
    }
    page_on(listing, listing.from.segment, 0, out)
}
