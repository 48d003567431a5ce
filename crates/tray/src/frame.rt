// The frame of a tray: its header, its counts, and where each run starts. A call tests it once, with at most 63 additions.
ghost use Rattle.std.specs.Prelude.{◌≡◌, ◌+◌, ◌*◌, ◌≤◌, ◌<◌, length};
ghost use Rattle.tray.specs.Frame.{run_count, count_of, run_bytes, header_fits};
ghost use Rattle.tray.specs.Frame.Code.{Header, Opens};
ghost use Rattle.tray.specs.Run.{record_at};
ghost use Rattle.tray.specs.Run.Code.{HeadOf};

use crate::run::{key_at, kind_at};
use crate::{Head, Place, RunNo, Tray};
use number::BigEndian;
use refusal::Refusal;

// How many records a run has.
pub fn count_of(t: &[u8], r: RunNo) -> u16
    requires { 6 + 2 * r.0 ≤ length t.now }
    ensures { result ≡ count_of t.now r.0 }
{
    let i = r.0;
    u16::read(t, 4 + 2 * usize::from(i))
}

// Whether the header is right and the counts have room.
fn header_fits(t: &[u8]) -> bool
    ensures { result ≡ header_fits t.now }
{
    if t.len() < 4 {
        return false;
    }
    let h = t[0];
    if t.len() < 4 + 2 * usize::from(h) {
        return false;
    }
    if h < 1 {
        return false;
    }
    if 63 < h {
        return false;
    }
    if t[1] != 0 {
        return false;
    }
    if t[2] != 0 {
        return false;
    }
    t[3] == 0
}

// The tray after a header that fits.
#[inline(always)]
fn count_runs(t: &[u8]) -> Result<Tray, Refusal>
    requires { Header t.now }
    ensures { Opens t.now result }
{
    let h = t[0];
    let mut counts = [0u16; 63];
    let mut starts = [0usize; 64];
    let mut at = 4 + 2 * usize::from(h);
    starts[0] = at;
    for r in 0..h {
        let n = count_of(t, RunNo(r));
        if 4096 < n {
            return Err(Refusal::TrayFrame);
        }
        let i = usize::from(r);
        at += 25 * usize::from(n);
        counts[i] = n;
        starts[i + 1] = at;
    }
    if at == t.len() {
        return Ok(Tray {
            bytes: t,
            runs: h,
            counts,
            starts,
        });
    }
    Err(Refusal::TrayFrame)
}

impl<'a> Tray<'a> {
    // The tray of any bytes where its frame fits, and else refusal 1.
    #[inline(always)]
    pub fn open(t: &'a [u8]) -> Result<Tray<'a>, Refusal>
        ensures { Opens t.now result }
    {
        if header_fits(t) {
            return count_runs(t);
        }
        Err(Refusal::TrayFrame)
    }

    // A run as its own stretch from the middle of the tray.
    pub fn run(&self, r: RunNo) -> &'a [u8]
        requires { r.0 < run_count self.now.bytes.now }
        ensures bytes { result.now ≡ run_bytes self.now.bytes.now r.0 }
        ensures records { length result.now ≡ 25 * count_of self.now.bytes.now r.0 }
    {
        let n = r.0;
        let i = usize::from(n);
        let t = self.bytes;
        let a = self.starts[i];
        let e = self.starts[i + 1];
        &t[a..e]
    }

    // How many records a run has.
    pub fn count(&self, r: RunNo) -> u16
        requires { r.0 < run_count self.now.bytes.now }
        ensures value { result ≡ count_of self.now.bytes.now r.0 }
        ensures upper_bound { result ≤ 4096 }
    {
        let n = r.0;
        self.counts[usize::from(n)]
    }

    // The head of the record at a place of a run.
    pub fn head(&self, r: RunNo, p: Place) -> Head
        requires r_bound { r.0 < run_count self.now.bytes.now }
        requires p_bound { p.0 < count_of self.now.bytes.now r.0 }
        ensures { HeadOf result (record_at (run_bytes self.now.bytes.now r.0) p.0) }
    {
        let run = self.run(r);
        Head {
            key: key_at(run, p),
            kind: kind_at(run, p),
        }
    }
}
