// The folded tray written: its head, and its runs with the kept records in their place. All but the kept records is copied from the tray.
#![tactic(auto)]

ghost use Rattle.std.specs.Prelude.{◌≡◌, map, ◌+◌, ◌-◌, ◌*◌, ◌≤◌, length};
ghost use Rattle.number.specs.Big.{put};
ghost use Rattle.theory.specs.Rising.{All};
ghost use Rattle.tray.specs.Frame.{run_count, start_of};
ghost use Rattle.tray.specs.Run.{record_from};
ghost use Rattle.tray.specs.Meaning.{runs_of, record_bytes, records_bytes};
ghost use Rattle.fold_spec.specs.Fold.{folded_run, fold_bytes, fold_size};
ghost use Rattle.fold_write.specs.Write.{head_bytes, body_bytes};

use fold_merge::Neighbours;
use number::{BigEndian, copy};

// Copies a record. It is read whole before it is written, as three numbers and a byte: byte by byte it would be slow.
fn put_record(t: &[u8], from: usize, out: &mut [u8], at: usize)
    requires { (from + 25 ≤ length t.now) × (at + 25 ≤ length out.old) }
    ensures { out.new ≡ put out.old at (record_bytes (record_from t.now from)) }
{
    let key = u64::read(t, from);
    let kind = t[from + 8];
    let high = u64::read(t, from + 9);
    let low = u64::read(t, from + 17);
    key.write(out, at);
    out[at + 8] = kind;
    high.write(out, at + 9);
    low.write(out, at + 17);
}

// Copies the kept records, back to back.
fn put_kept(t: &[u8], kept: &[usize], out: &mut [u8], at: usize)
    requires room { at + 25 * length kept.now ≤ length out.old }
    requires inside { All (λ from. from + 25 ≤ length t.now) kept.now }
    ensures { out.new ≡ put out.old at (records_bytes (map (record_from t.now) kept.now)) }
{
    for (j, from) in kept.iter().enumerate() {
        put_record(t, *from, out, at + 25 * j);
    }
}

// The header and the counts, with n for the folded run.
fn put_tray_head(runs: &Neighbours, n: u16, out: &mut [u8])
    requires { 4 + 2 * (run_count runs.now.tray.bytes.now - (runs.now.b.0 - runs.now.a.0)) ≤ length out.old }
    ensures { out.new ≡ put out.old 0 (head_bytes runs.now.tray.bytes.now runs.now.a.0 runs.now.b.0 n) }
{
    let t = runs.tray.bytes;
    let x = 4 + 2 * usize::from(runs.a.0);
    let y = 6 + 2 * usize::from(runs.b.0);
    let z = 4 + 2 * usize::from(runs.tray.runs);
    out[0] = runs.left();
    out[1] = 0;
    out[2] = 0;
    out[3] = 0;
    copy(&t[4..x], out, 4);
    n.write(out, x);
    copy(&t[y..z], out, x + 2);
}

// The records: those of the runs before, the kept ones, and those of the runs after.
fn put_body(runs: &Neighbours, kept: &[usize], out: &mut [u8], at: usize)
    requires room { at
        + ((start_of runs.now.tray.bytes.now runs.now.a.0 - start_of runs.now.tray.bytes.now 0)
        + 25 * length kept.now
        + (length runs.now.tray.bytes.now - start_of runs.now.tray.bytes.now (runs.now.b.0 + 1)))
        ≤ length out.old }
    requires inside { All (λ from. from + 25 ≤ length runs.now.tray.bytes.now) kept.now }
    ensures { out.new
        ≡ put out.old at
        (body_bytes
        runs.now.tray.bytes.now
        (start_of runs.now.tray.bytes.now 0)
        (start_of runs.now.tray.bytes.now runs.now.a.0)
        (start_of runs.now.tray.bytes.now (runs.now.b.0 + 1))
        (map (record_from runs.now.tray.bytes.now) kept.now)) }
{
    let before = runs.before();
    let after = runs.after();
    let p = at + before.len();
    copy(before, out, at);
    put_kept(runs.tray.bytes, kept, out, p);
    copy(after, out, p + 25 * kept.len());
}

// The tray with these runs made one of the kept records.
pub fn write_tray(runs: &Neighbours, kept: &[usize], out: &mut [u8])
    requires most { length kept.now ≤ 4096 }
    requires inside { All (λ from. from + 25 ≤ length runs.now.tray.bytes.now) kept.now }
    requires are { map (record_from runs.now.tray.bytes.now) kept.now ≡ folded_run runs.now.a.0 runs.now.b.0 (runs_of runs.now.tray.bytes.now) }
    requires room { fold_size runs.now.a.0 runs.now.b.0 (runs_of runs.now.tray.bytes.now) ≤ length out.old }
    ensures { out.new ≡ put out.old 0 (fold_bytes runs.now.a.0 runs.now.b.0 (runs_of runs.now.tray.bytes.now)) }
{
    put_tray_head(runs, kept.len() as u16, out);
    put_body(runs, kept, out, 4 + 2 * usize::from(runs.left()));
}
