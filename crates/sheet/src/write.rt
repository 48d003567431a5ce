// A sheet written, once its records are counted.
ghost use Rattle.std.specs.Prelude.{◌≤◌};
ghost use Rattle.walk.specs.Code.{spot_of};
ghost use Rattle.list.specs.Stops.{Within};
ghost use Rattle.sheet.specs.Write.{Leaves};

use list::Listing;
use list::points::put_all;
use page_walk::page_from;
use refusal::Refusal;

// So many records of a listing, where the output has room for them: from what is remembered where that is all of them, and else by a second walk,
// through a stretch of just their length. No index has so many that their bytes are past counting.
pub fn write_counted(
    listing: &Listing,
    held: &[usize],
    count: usize,
    out: &mut [u8],
) -> Result<u64, Refusal>
    requires count { count ≤ 1099511627776 }
    requires within { Within listing.now.indexed.now.tray.bytes.now held.now }
    ensures { Leaves listing.now.indexed.now.tray.bytes.now listing.now.indexed.now.index.bytes.now (spot_of listing.now.from.now)
        held.now count out.old out.new result }
{
    let indexed = listing.indexed;
    let k = 24 * count;
    let room = out.len();
    if room < k {
        return Err(Refusal::Room(k as u64));
    }
    if held.len() == count {
        put_all(indexed.tray.bytes, held, 0, out);
        return Ok(count as u64);
    }
    page_from(listing, &mut out[..k]);
    Ok(count as u64)
}
