// Folding neighbouring runs into one (docs/RULES.md, "Folding").
#![tactic(auto)]

ghost use Rattle.std.specs.Prelude.{◌≡◌, ◌≤◌, length};
ghost use Rattle.tray.specs.Meaning.{runs_of};
ghost use Rattle.fold_merge.specs.Folding.{Folding};
ghost use Rattle.fold_spec.specs.Fold.{fold_size, folded_run, fold_answer, fold_leaves};
ghost use Rattle.fold_write.specs.Write.{sound_answer};

use fold_merge::{Neighbours, merge_runs};
use fold_write::write_tray;
use number::copy;
use refusal::Refusal;
use tray::{RunNo, Tray};
use tray_check::check_tray;

// How many bytes the tray has with these runs made one of n records.
fn folded_size(runs: &Neighbours, n: usize) -> usize
    requires most { n ≤ 4096 }
    requires number { n ≡ length (folded_run runs.now.a.0 runs.now.b.0 (runs_of runs.now.tray.bytes.now)) }
    ensures { result ≡ fold_size runs.now.a.0 runs.now.b.0 (runs_of runs.now.tray.bytes.now) }
{
    4 + 2 * usize::from(runs.left()) + (runs.before().len() + 25 * n + runs.after().len())
}

// One run folded is the tray as it is: it is copied. No neighbours are made for it, which would copy the table of its runs.
fn fold_one(tray: &Tray, a: RunNo, b: RunNo, out: &mut [u8]) -> Result<u64, Refusal>
    requires folding { Folding tray.now a.0 b.0 }
    requires one { a.0 ≡ b.0 }
    ensures value { result ≡ sound_answer a.0 b.0 (runs_of tray.now.bytes.now) (length out.old) }
    ensures out_after { out.new ≡ fold_leaves tray.now.bytes.now a.0 b.0 out.old result }
{
    let t = tray.bytes;
    let size = t.len();
    if out.len() < size {
        return Err(Refusal::Room(size as u64));
    }
    copy(t, out, 0);
    Ok(size as u64)
}

// Several runs are merged once. How many records are left decides on 12, and only then the room on 7.
fn fold_runs(runs: &Neighbours, out: &mut [u8]) -> Result<u64, Refusal>
    ensures value { result ≡ sound_answer runs.now.a.0 runs.now.b.0 (runs_of runs.now.tray.bytes.now) (length out.old) }
    ensures out_after { out.new ≡ fold_leaves runs.now.tray.bytes.now runs.now.a.0 runs.now.b.0 out.old result }
{
    let mut kept = [0usize; 4096];
    let n = merge_runs(runs, &mut kept);
    if 4096 < n {
        return Err(Refusal::RunLength(n as u64));
    }
    let size = folded_size(runs, n);
    if out.len() < size {
        return Err(Refusal::Room(size as u64));
    }
    write_tray(runs, &kept[..n], out);
    Ok(size as u64)
}

// Fold: the bytes written, or refusal 1, 8, 3 or 2, 12, or 7. After a refusal the output is as it was.
pub fn fold(t: &[u8], a: RunNo, b: RunNo, out: &mut [u8]) -> Result<u64, Refusal>
    ensures value { result ≡ fold_answer t.now a.0 b.0 (length out.old) }
    ensures out_after { out.new ≡ fold_leaves t.now a.0 b.0 out.old result }
{
    let tray = Tray::open(t)?;
    if b.0 < a.0 || tray.runs <= b.0 {
        return Err(Refusal::Bounds(u64::from(b.0)));
    }
    check_tray(t)?;
    if a == b {
        return fold_one(&tray, a, b, out);
    }
    fold_runs(&Neighbours { tray, a, b }, out)
}
