// The check of a whole tray, in one pass.
#![tactic(auto)]

pub mod run;

ghost use Rattle.std.specs.Prelude.{◌≡◌, ◌≤◌, Ok, Err};
ghost use Rattle.tray.specs.Frame.{run_count};
ghost use Rattle.tray.specs.Check.{after_run, check_runs, check_tray_answer};

use crate::run::check_run;
use refusal::Refusal;
use tray::{Fault, RunNo, Tray};

// What is wrong with a run's record, as the tray's refusal: so many records stand before the run.
fn refusal_of(fault: Fault, before: usize) -> Refusal
    requires { before ≤ 258048 }
    ensures { Err result ≡ after_run before (Err fault) (Ok 0) }
{
    match fault {
        Fault::WrongKind(p) => Refusal::RecordKind((before + usize::from(p.0)) as u64),
        Fault::WrongKey(p) => Refusal::KeyOrder((before + usize::from(p.0)) as u64),
    }
}

// The records of all runs judged, run by run.
fn check_runs(tray: &Tray) -> Result<u64, Refusal>
    ensures { result ≡ check_runs (run_count tray.now.bytes.now) tray.now.bytes.now 0 }
{
    let mut before: usize = 0;
    for r in 0..tray.runs {
        let n = tray.count(RunNo(r));
        if let Err(fault) = check_run(tray.run(RunNo(r)), n) {
            return Err(refusal_of(fault, before));
        }
        before += usize::from(n);
    }
    Ok(before as u64)
}

// Check tray: the records, or refusal 1, or 3 or 2 at the first wrong record.
pub fn check_tray(t: &[u8]) -> Result<u64, Refusal>
    ensures { result ≡ check_tray_answer t.now }
{
    let tray = Tray::open(t)?;
    check_runs(&tray)
}
