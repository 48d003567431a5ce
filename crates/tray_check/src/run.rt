// The records of one run judged. The run is handed on as its own stretch from the middle of the tray, and `at` is where a record starts in it.
ghost use Rattle.std.specs.Prelude.{◌≡◌, not, ◌||◌, ◌+◌, ◌*◌, ◌≤◌, ◌<◌, length, eqb, ltb};
ghost use Rattle.number.specs.Big.{be};
ghost use Rattle.tray.specs.Run.{record_from, kind_wrong, judge_run};

use number::BigEndian;
use tray::{Fault, Place};

// Whether 16 bytes are all zero.
fn value_is_zero(run: &[u8], at: usize) -> bool
    requires { at + 16 ≤ length run.now }
    ensures { result ≡ eqb (be 16 run.now at) 0 }
{
    u64::read(run, at) == 0 && u64::read(run, at + 8) == 0
}

// Whether a record's kind is known and, where it is gone, its value zero.
fn kind_right(run: &[u8], at: usize) -> bool
    requires { at + 25 ≤ length run.now }
    ensures { result ≡ not (kind_wrong (record_from run.now at)) }
{
    match run[at + 8] {
        0 => true,
        1 => value_is_zero(run, at + 9),
        _ => false,
    }
}

// Whether a key is above the last one; the first record of a run is above nothing.
fn key_right(last: u64, key: u64, p: u16) -> bool
    ensures { result ≡ (ltb last key || eqb p 0) }
{
    last < key || p == 0
}

// No more than 0 where a record is live and its key above the last one: added up, so that there is nothing to jump for.
fn odd(kind: u8, last: u64, key: u64) -> u16
    ensures { result ≡ 0 → (kind ≡ 0) × (last < key) }
{
    u16::from(kind) + u16::from(key <= last)
}

// The first wrong record of a run of n, its kind before its key.
pub fn check_run(run: &[u8], n: u16) -> Result<(), Fault>
    requires { length run.now ≡ 25 * n }
    ensures { result ≡ judge_run n run.now }
{
    let mut last: u64 = 0;
    for p in 0..n {
        let at = 25 * usize::from(p);
        let key = u64::read(run, at);
        // Most records are live and above the last one: told first, so that the loop has one jump for them.
        if odd(run[at + 8], last, key) == 0 {
            last = key;
            continue;
        }
        if !kind_right(run, at) {
            return Err(Fault::WrongKind(Place(p)));
        }
        if !key_right(last, key, p) {
            return Err(Fault::WrongKey(Place(p)));
        }
        last = key;
    }
    Ok(())
}
