// Where a walk for a key starts: a binary search over the anchors with the very probes of docs/RULES.md, "Start".
ghost use Rattle.std.specs.Prelude.{◌≡◌};
ghost use Rattle.walk.specs.Start.{probe, start};

use index::{Index, SegmentNo};
use number::BigEndian;

// How many segments are passed when none remain to be probed. Each probe halves what is left, so that no `for` counts them.
fn probed(index: &Index, key: u64) -> u32
    ensures { result ≡ probe index.now.runs index.now.bytes.now key index.now.segments 0 index.now.segments }
{
    let mut first: u32 = 0;
    let mut past: u32 = index.segments;
    while first < past {
        let middle = first + (past - first) / 2;
        let at = index.segment_at(SegmentNo(middle));
        if u64::read(index.bytes, at) <= key {
            first = middle + 1;
            continue;
        }
        past = middle;
    }
    first
}

// The segment at which the walk for a key starts.
pub fn start_at(index: &Index, key: u64) -> SegmentNo
    ensures { result.0 ≡ start index.now.runs index.now.bytes.now key }
{
    SegmentNo(probed(index, key).saturating_sub(1))
}
