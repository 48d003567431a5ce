// All segments, each written into its own stretch of the output.
ghost use Rattle.std.specs.Prelude.{◌≡◌, [], ◌≤◌, length};
ghost use Rattle.number.specs.Big.{put};
ghost use Rattle.tray.specs.Meaning.{runs_of};
ghost use Rattle.build_spec.specs.Build.{cuts, segments_bytes, index_size};
ghost use Rattle.build_marks.specs.Code.{Sounded};
ghost use Rattle.build_segment.specs.Segment.Loops.{Wrote};

use build_segment::write_segment;
use index::SegmentNo;
use index::frame::segment_at;
use tray::Tray;

// The next segment, at place a of the output where that has room for it, and else into a stretch that is let go: how many records it has. The stretch is
// lent: made here, it would be cleared for each segment.
fn put_segment(
    tray: &Tray,
    d: u8,
    places: &mut [u16; 63],
    stretch: &mut [u8; 262],
    out: &mut [u8],
    a: usize,
) -> usize
    requires { (d ≤ 128) × (a ≤ 4398046511104) }
    ensures { Wrote tray.now d places.old out.old a places.new out.new result }
{
    let w = 8 + 2 * usize::from(tray.runs) + usize::from(d);
    if a + w <= out.len() {
        return write_segment(tray, d, places, &mut out[a..a + w]);
    }
    write_segment(tray, d, places, &mut stretch[..w])
}

// The segments, from byte 8 on: how many. Where the output has no room for all of them, no clause says what stands in it; an empty one stays so, and
// they are only counted.
pub fn write_segments(tray: &Tray, d: u8, n: u64, out: &mut [u8]) -> u32
    requires { Sounded tray.now d n }
    ensures value { result ≡ length (cuts d (runs_of tray.now.bytes.now)) }
    ensures out_after { index_size d (runs_of tray.now.bytes.now) ≤ length out.old
        → out.new ≡ put out.old 8 (segments_bytes d (runs_of tray.now.bytes.now) [] (cuts d (runs_of tray.now.bytes.now))) }
{
    let mut places = [0u16; 63];
    let mut stretch = [0u8; 262];
    let mut left = n;
    let mut g: u32 = 0;
    // Not a range: how many segments there are shows only as they are cut.
    while 0 < left {
        let a = segment_at(SegmentNo(g), tray.runs, d);
        left -= put_segment(tray, d, &mut places, &mut stretch, out, a) as u64;
        g += 1;
    }
    g
}
