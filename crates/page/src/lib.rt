// The call page: it tests the frames, the cursor and every place that it follows.
#![tactic(auto)]

ghost use Rattle.std.specs.Prelude.{◌≡◌};
ghost use Rattle.answers.specs.Page.{page_answer, page_leaves};
ghost use Rattle.page.specs.Code.{rest_of};

use answers::{Paged, Rest};
use list::Listing;
use page_walk::page_from;
use refusal::Refusal;
use walk::Indexed;
use walk::cursor::{Cursor, Lost};
use walk_cursor::belongs;

// Where a page's walk stops, as page tells it, for an index of n segments.
fn rest_of(stop: Result<Option<Cursor>, Lost>, n: u32) -> Result<Rest, Refusal>
    ensures { result ≡ rest_of n stop }
{
    let Some(cursor) = stop? else {
        return Ok(Rest::End(Cursor::end(n)));
    };
    Ok(Rest::More(cursor))
}

// Page: how many records were written from the first visible one at or after the cursor on, and where the first unwritten one stands; refusals
// 1, 4, 11, 10.
pub fn page(t: &[u8], x: &[u8], from: Cursor, out: &mut [u8]) -> Paged
    ensures value { result ≡ page_answer t.now x.now from out.old }
    ensures out_after { out.new ≡ page_leaves t.now x.now from out.old }
{
    let indexed = match Indexed::open(t, x) {
        Ok(indexed) => indexed,
        Err(r) => {
            return Paged {
                count: 0,
                rest: Err(r),
            };
        }
    };
    if belongs(&indexed.index, &from) {
        let listing = Listing {
            indexed: &indexed,
            from: &from,
        };
        let end = page_from(&listing, out);
        return Paged {
            count: end.count,
            rest: rest_of(end.stop, indexed.index.segments),
        };
    }
    Paged {
        count: 0,
        rest: Err(Refusal::Cursor(u64::from(from.segment.0))),
    }
}
