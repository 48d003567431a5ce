// The builder of indexes (docs/RULES.md, "The index"): each key's versions go into the current segment if all fit and else open a new one.
#![tactic(auto)]

pub mod segments;

ghost use Rattle.std.specs.Prelude.{◌≡◌, [], ◌∷◌, ◌++◌, ◌≤◌, length};
ghost use Rattle.number.specs.Big.{bytes_of, put};
ghost use Rattle.tray.specs.Meaning.{runs_of};
ghost use Rattle.build_spec.specs.Build.{index_bytes, index_size, build_answer, build_leaves};
ghost use Rattle.build_marks.specs.Code.{Sounded};
ghost use Rattle.build.specs.Answers.{Told};

use crate::segments::write_segments;
use index::SegmentNo;
use index::frame::segment_at;
use number::BigEndian;
use refusal::Refusal;
use tray::Tray;
use tray_check::check_tray;

// The header: runs, segment size, two zeros, and the segment count.
fn put_header(out: &mut [u8], h: u8, d: u8, s: u32)
    requires { 8 ≤ length out.old }
    ensures { out.new ≡ put out.old 0 ((h ∷ d ∷ 0 ∷ 0 ∷ []) ++ bytes_of 4 s) }
{
    out[0] = h;
    out[1] = d;
    out[2] = 0;
    out[3] = 0;
    s.write(out, 4);
}

// The index of a sound tray written, where it has room: its length.
fn write_index(tray: &Tray, d: u8, n: u64, out: &mut [u8]) -> u64
    requires sounded { Sounded tray.now d n }
    requires room { index_size d (runs_of tray.now.bytes.now) ≤ length out.old }
    ensures value { result ≡ index_size d (runs_of tray.now.bytes.now) }
    ensures out_after { out.new ≡ put out.old 0 (index_bytes d (runs_of tray.now.bytes.now)) }
{
    let s = write_segments(tray, d, n, out);
    put_header(out, tray.runs, d, s);
    segment_at(SegmentNo(s), tray.runs, d) as u64
}

// Refusal 7 where the output is too short for the index of a sound tray. Its segments are counted first only where the room isn't surely enough.
fn check_room(tray: &Tray, d: u8, n: u64, room: usize) -> Result<(), Refusal>
    requires { Sounded tray.now d n }
    ensures { Told (index_size d (runs_of tray.now.bytes.now)) room result }
{
    let most = 2 * (n / (u64::from(d) + 1)) + 1;
    if segment_at(SegmentNo(most as u32), tray.runs, d) <= room {
        return Ok(());
    }
    let s = write_segments(tray, d, n, &mut []);
    let size = segment_at(SegmentNo(s), tray.runs, d);
    if room < size {
        return Err(Refusal::Room(size as u64));
    }
    Ok(())
}

// Build: the bytes written, or refusal 1, 6, 3 or 2, or 7. After a refusal the output is as it was.
pub fn build(t: &[u8], d: u8, out: &mut [u8]) -> Result<u64, Refusal>
    ensures value { result ≡ build_answer t.now d (length out.old) }
    ensures out_after { out.new ≡ build_leaves t.now d out.old result }
{
    let tray = Tray::open(t)?;
    if d < tray.runs || 128 < d {
        return Err(Refusal::SegmentSize(u64::from(d)));
    }
    let n = check_tray(t)?;
    check_room(&tray, d, n, out.len())?;
    Ok(write_index(&tray, d, n, out))
}
