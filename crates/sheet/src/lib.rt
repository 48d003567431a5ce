// Sheet (docs/RULES.md, "Reading through an index"): it seeks the prefix filled with zeros and lists each record where the walk stays, until the
// first key at or above the prefix with its last byte raised by one, filled with zeros. It tests the frames, the prefix and every place that it
// follows, and writes only once it is sure.
#![tactic(auto)]

pub mod bounds;
pub mod write;

ghost use Rattle.std.specs.Prelude.{◌≡◌, length};
ghost use Rattle.walk.specs.Reads.{seek, sheet_from};
ghost use Rattle.list.specs.Listing.{sheet_of};
ghost use Rattle.answers.specs.Sheet.{sheet_answer, sheet_leaves};
ghost use Rattle.sheet.specs.Write.{Gives};

use crate::bounds::{high_key, low_key};
use crate::write::write_counted;
use list::Listing;
use refusal::Refusal;
use seek_walk::seek_for;
use sheet_count::count_from;
use walk::Indexed;
use walk::cursor::Sighting;

// Both passes: the first counts and writes nothing.
fn list_from(listing: &Listing, high: u64, out: &mut [u8]) -> Result<u64, Refusal>
    ensures { Gives (sheet_of listing.now high) out.old out.new result }
{
    // As many as a common sheet has, and few enough to be cleared at each call.
    let mut ats = [0usize; 512];
    let counted = count_from(listing, high, &mut ats);
    counted.stop?;
    write_counted(listing, &ats[..counted.held], counted.count, out)
}

// Sheet between two bounds.
fn sheet_between(indexed: &Indexed, low: u64, high: u64, out: &mut [u8]) -> Result<u64, Refusal>
    ensures { Gives
        (sheet_from indexed.now.tray.bytes.now indexed.now.index.bytes.now high (seek indexed.now.tray.bytes.now indexed.now.index.bytes.now low))
        out.old out.new result }
{
    let Some(Sighting { run, place, cursor }) = seek_for(indexed, low)? else {
        return Ok(0);
    };
    // The first record may be past the sheet already: then nothing is walked twice.
    if high <= indexed.tray.head(run, place).key {
        return Ok(0);
    }
    let listing = Listing {
        indexed,
        from: &cursor,
    };
    list_from(&listing, high, out)
}

// Sheet: each record where the walk stays from a prefix on, until the first key past it, 24 bytes each; refusals 1, 4, 8, 9, 10, 7. After a
// refusal the output is as it was.
pub fn sheet(t: &[u8], x: &[u8], prefix: &[u8], out: &mut [u8]) -> Result<u64, Refusal>
    ensures value { result ≡ sheet_answer t.now x.now prefix.now (length out.old) }
    ensures out_after { out.new ≡ sheet_leaves t.now x.now prefix.now out.old result }
{
    let indexed = Indexed::open(t, x)?;
    let k = prefix.len();
    if k == 0 || 8 < k {
        return Err(Refusal::Bounds(k as u64));
    }
    if prefix[k - 1] == 255 {
        return Err(Refusal::PrefixEnd(k as u64));
    }
    sheet_between(&indexed, low_key(prefix), high_key(prefix), out)
}
