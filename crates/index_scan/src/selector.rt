// One selector: whether it is marked as the record that it names must be.
ghost use Rattle.std.specs.Prelude.{◌≡◌, ◌<◌};
ghost use Rattle.index.specs.Scan.{begins, joins};
ghost use Rattle.tray.specs.Run.Code.{headed};

use tray::Head;

// Whether a selector may stand first in its segment: its record is not old. Its mark is computed without a branch, as below.
pub fn may_begin(v: u8, e: Head) -> bool
    ensures { result ≡ begins v (headed e) }
{
    v == v % 64 + 64 * u8::from(e.kind != 0)
}

// Whether a selector may follow a record with key `last` of run `before`. In a right index keys never fall, so only the mark tells equal keys
// from rising ones, and the runs are compared by a division: what cannot be predicted is not branched on.
pub fn may_follow(last: u64, before: u8, v: u8, e: Head) -> bool
    requires { before < 64 }
    ensures { result ≡ joins last before v (headed e) }
{
    let r = v % 64;
    let marked = r + 128 * u8::from(last == e.key) + 64 * u8::from(e.kind != 0);
    if v == marked && last <= e.key {
        return v / 128 <= (63 + r - before) / 64;
    }
    false
}
