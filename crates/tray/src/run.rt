// The records of one run. The run is handed on as its own stretch from the middle of the tray, and `at` is where a record starts in it.
ghost use Rattle.std.specs.Prelude.{◌≡◌, ◌+◌, ◌*◌, ◌≤◌, length};
ghost use Rattle.number.specs.Big.{bytes_of};
ghost use Rattle.tray.specs.Run.{record_at};

use crate::Place;
use number::BigEndian;

// The key of the record at a place.
pub fn key_at(run: &[u8], p: Place) -> u64
    requires { 25 * p.0 + 25 ≤ length run.now }
    ensures { result ≡ (record_at run.now p.0).key }
{
    let i = p.0;
    u64::read(run, 25 * usize::from(i))
}

// The kind of the record at a place.
pub fn kind_at(run: &[u8], p: Place) -> u8
    requires { 25 * p.0 + 25 ≤ length run.now }
    ensures { result ≡ (record_at run.now p.0).kind }
{
    let i = p.0;
    run[25 * usize::from(i) + 8]
}

// The value of the record at a place.
pub fn value_at(run: &[u8], p: Place) -> [u8; 16]
    requires { 25 * p.0 + 25 ≤ length run.now }
    ensures { result ≡ bytes_of 16 (record_at run.now p.0).value }
{
    let i = p.0;
    let at = 25 * usize::from(i) + 9;
    let mut v = [0u8; 16];
    u64::read(run, at).write(&mut v, 0);
    u64::read(run, at + 8).write(&mut v, 8);
    v
}
