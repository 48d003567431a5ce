// The frame of an index, and where its segments lie.
ghost use Rattle.std.specs.Prelude.{◌≡◌, ◌+◌, ◌*◌, ◌≤◌, ◌<◌, length};
ghost use Rattle.index.specs.Layout.{segment_at, head_size};
ghost use Rattle.index.specs.Layout.Opens.{Opens};

use crate::{Index, SegmentNo};
use number::BigEndian;
use refusal::Refusal;

// Where a segment starts, for a tray of h runs and segments of d. No product passes 2^42.
pub fn segment_at(g: SegmentNo, h: u8, d: u8) -> usize
    ensures { result ≡ segment_at h d g.0 }
{
    let n = g.0;
    8 + (n as usize) * (8 + 2 * usize::from(h) + usize::from(d))
}

impl<'a> Index<'a> {
    // The index of any bytes where its frame fits a tray of h runs, and else refusal 4.
    #[inline(always)]
    pub fn open(x: &'a [u8], h: u8) -> Result<Index<'a>, Refusal>
        ensures { Opens h x.now result }
    {
        if x.len() < 8 {
            return Err(Refusal::IndexFrame);
        }
        if x[0] != h {
            return Err(Refusal::IndexFrame);
        }
        let d = x[1];
        if d < h {
            return Err(Refusal::IndexFrame);
        }
        if 128 < d {
            return Err(Refusal::IndexFrame);
        }
        if x[2] != 0 {
            return Err(Refusal::IndexFrame);
        }
        if x[3] != 0 {
            return Err(Refusal::IndexFrame);
        }
        let n = u32::read(x, 4);
        if x.len() == segment_at(SegmentNo(n), h, d) {
            return Ok(Index {
                bytes: x,
                runs: h,
                size: d,
                segments: n,
            });
        }
        Err(Refusal::IndexFrame)
    }

    // Where a segment starts.
    pub fn segment_at(&self, g: SegmentNo) -> usize
        requires { g.0 < self.now.segments }
        ensures value { result ≡ segment_at self.now.runs self.now.size g.0 }
        ensures within { result + 8 + 2 * self.now.runs + self.now.size ≤ length self.now.bytes.now }
    {
        segment_at(g, self.runs, self.size)
    }

    // Where the selectors of a segment start.
    pub fn selectors_at(&self, g: SegmentNo) -> usize
        requires { g.0 < self.now.segments }
        ensures value { result ≡ segment_at self.now.runs self.now.size g.0 + 8 + 2 * self.now.runs }
        ensures within { result + self.now.size ≤ length self.now.bytes.now }
    {
        self.segment_at(g) + 8 + 2 * usize::from(self.runs)
    }
}
