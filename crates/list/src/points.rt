// What all listings share: how a page ends, and records written to the output, key and value, 24 bytes each.
ghost use Rattle.std.specs.Prelude.{◌≡◌, ◌+◌, ◌*◌, ◌≤◌, ◌<◌, length};
ghost use Rattle.number.specs.Big.{put};
ghost use Rattle.tray.specs.Frame.{run_count, count_of, run_bytes};
ghost use Rattle.tray.specs.Run.{record_at};
ghost use Rattle.walk.specs.Reads.{listed_bytes};
ghost use Rattle.list.specs.Stops.{Within};
ghost use Rattle.list.specs.Put.{put_all};

use number::BigEndian;
use tray::{Place, RunNo, Tray};
use walk::cursor::{Cursor, Lost};

// How a page's walk ends: how many records were written, and the cursor of the first that was not, or the end, or where the walk is lost.
#[derive(Clone, Copy)]
pub struct PageEnd {
    pub count: usize,
    pub stop: Result<Option<Cursor>, Lost>,
}

// Key and value of the record at a place of a run, written from a byte on. Both halves of the value are read before either is written: so the
// compiler joins them, and a record is two loads and two stores.
fn write_from(run: &[u8], p: Place, out: &mut [u8], at: usize)
    requires { (25 * p.0 + 25 ≤ length run.now) × (at + 24 ≤ length out.old) }
    ensures { out.new ≡ put out.old at (listed_bytes (record_at run.now p.0)) }
{
    let i = p.0;
    let from = 25 * usize::from(i);
    u64::read(run, from).write(out, at);
    let high = u64::read(run, from + 9);
    let low = u64::read(run, from + 17);
    high.write(out, at + 8);
    low.write(out, at + 16);
}

// The same for a run of the tray: the run is handed on as its own stretch of the tray.
pub fn write_point(tray: &Tray, r: RunNo, p: Place, out: &mut [u8], at: usize)
    requires run { r.0 < run_count tray.now.bytes.now }
    requires place { p.0 < count_of tray.now.bytes.now r.0 }
    requires room { at + 24 ≤ length out.old }
    ensures { out.new ≡ put out.old at (listed_bytes (record_at (run_bytes tray.now.bytes.now r.0) p.0)) }
{
    write_from(tray.run(r), p, out, at);
}

// The gathered records, written after the ones that are: each is handed on as its own stretch of the tray.
pub fn put_all(t: &[u8], ats: &[usize], count: usize, out: &mut [u8])
    requires within { Within t.now ats.now }
    requires room { 24 * (count + length ats.now) ≤ length out.old }
    ensures { out.new ≡ put_all t.now ats.now count out.old }
{
    for (i, a) in ats.iter().enumerate() {
        write_from(&t[*a..*a + 25], Place(0), out, 24 * (count + i));
    }
}
