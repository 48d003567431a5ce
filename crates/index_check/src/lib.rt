// Check index: whether an index follows the rules for its tray (docs/RULES.md, "The index").
#![tactic(auto)]

ghost use Rattle.std.specs.Prelude.{◌≡◌, ◌<◌};
ghost use Rattle.index.specs.Check.{judge_index, check_index_answer};

use index::{Index, SegmentNo};
use index_scan::segment::{check_segment, used_up};
use refusal::Refusal;
use tray::Tray;
use tray_check::check_tray;

// The segments judged from 0 on, for a tray and an index whose frames fit.
fn check_segments(tray: &Tray, index: &Index) -> Result<u64, Refusal>
    requires runs { index.now.runs ≡ tray.now.runs }
    requires size { 0 < index.now.size }
    ensures { result ≡ judge_index tray.now.bytes.now index.now.bytes.now }
{
    let mut places = [0u16; 63];
    for g in 0..index.segments {
        if !check_segment(tray, index, SegmentNo(g), &mut places) {
            return Err(Refusal::Segment(u64::from(g)));
        }
    }
    let n = u64::from(index.segments);
    if used_up(tray, &places) {
        return Ok(n);
    }
    Err(Refusal::Segment(n))
}

// Check index: the segments, or refusal 1, 3 or 2 of the tray, 4, or 5 at the first wrong segment.
pub fn check_index(t: &[u8], x: &[u8]) -> Result<u64, Refusal>
    ensures { result ≡ check_index_answer t.now x.now }
{
    check_tray(t)?;
    let tray = Tray::open(t)?;
    let index = Index::open(x, tray.runs)?;
    check_segments(&tray, &index)
}
