// How many records sheet lists: the walk of its first pass, which writes nothing. It goes a segment at a time, and remembers where the records
// stand as long as there is room for those of a segment.
#![tactic(auto)]

ghost use Rattle.std.specs.Prelude.{◌≡◌, cond, ◌+◌, ◌*◌, ◌≤◌, leb, length};
ghost use Rattle.list.specs.Stops.{Within};
ghost use Rattle.list.specs.Listing.{sheet_of};
ghost use Rattle.sheet_count.specs.Count.{Past, Counts};

use index::SegmentNo;
use list::Listing;
use list::stops::gather;
use tray::Place;
use tray::run::key_at;
use walk::cursor::Lost;

// The end of a count: how many records its walk passed that are to be listed, how many of them, the last ones, are remembered, and where the walk
// stopped: true at a record at or above the bound, false at the end, or where it is lost.
#[derive(Clone, Copy)]
pub struct Counted {
    pub count: usize,
    pub held: usize,
    pub stop: Result<bool, Lost>,
}

// How many of the gathered records stand before the first one whose key is at or above a bound.
fn first_past(t: &[u8], ats: &[usize], high: u64) -> usize
    requires { Within t.now ats.now }
    ensures { Past t.now ats.now high result }
{
    for (i, a) in ats.iter().enumerate() {
        if high <= key_at(&t[*a..*a + 25], Place(0)) {
            return i;
        }
    }
    ats.len()
}

// So many are remembered where there is room for more, and else none.
fn slots_kept(held: usize, more: usize, room: usize) -> usize
    requires { (held ≤ room) × (more ≤ room) }
    ensures value { result ≡ cond (leb (held + more) room) held 0 }
    ensures more_bound { result + more ≤ room }
{
    if room - held < more {
        return 0;
    }
    held
}

// How many unmarked records a listing comes to until the first key at or above a bound, to its end, or to where its walk is lost, and which of these
// it was; never more than 2^40.
pub fn count_from(listing: &Listing, high: u64, ats: &mut [usize]) -> Counted
    requires { listing.now.indexed.now.index.size ≤ length ats.old }
    ensures counts { Counts listing.now.indexed.now.tray.bytes.now (sheet_of listing.now high) result ats.new }
    ensures count_bound { result.count ≤ 256 * listing.now.indexed.now.index.segments }
    ensures count_few { result.count ≤ 1099511627776 }
{
    let indexed = listing.indexed;
    let index = &indexed.index;
    let mut count: usize = 0;
    let mut held: usize = 0;
    let mut places = [Place(0); 63];
    for g in listing.from.segment.0..index.segments {
        let at = usize::from(listing.enter(SegmentNo(g), &mut places));
        let before = slots_kept(held, usize::from(index.size) - at, ats.len());
        let gathered = gather(indexed, SegmentNo(g), at, &mut places, before, ats);
        let k = gathered.count;
        let fresh = first_past(indexed.tray.bytes, &ats[before..k], high);
        held = before + fresh;
        count += fresh;
        if held < k {
            return Counted {
                count,
                held,
                stop: Ok(true),
            };
        }
        if let Err(lost) = gathered.stop {
            return Counted {
                count,
                held,
                stop: Err(lost),
            };
        }
    }
    Counted {
        count,
        held,
        stop: Ok(false),
    }
}
