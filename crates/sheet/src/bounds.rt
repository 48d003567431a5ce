// The bounds of a sheet: its prefix filled with zeros, and its prefix with the last byte raised by one, filled with zeros.
ghost use Rattle.std.specs.Prelude.{◌≡◌, ◌++◌, ◌-◌, ◌≤◌, ◌<◌, length, get_or, replicate};
ghost use Rattle.walk.specs.Reads.{low_key, high_key};

use number::BigEndian;

// The prefix filled with zeros.
fn filled(prefix: &[u8]) -> [u8; 8]
    requires { length prefix.now ≤ 8 }
    ensures { result ≡ prefix.now ++ replicate (8 - length prefix.now) 0 }
{
    let mut key = [0u8; 8];
    key[..prefix.len()].copy_from_slice(prefix);
    key
}

// The key at which a sheet's walk begins.
pub fn low_key(prefix: &[u8]) -> u64
    requires { length prefix.now ≤ 8 }
    ensures { result ≡ low_key prefix.now }
{
    let key = filled(prefix);
    u64::read(&key, 0)
}

// The first key past a sheet. The last byte is below 255, so that raising it carries nothing.
pub fn high_key(prefix: &[u8]) -> u64
    requires { (1 ≤ length prefix.now) × (length prefix.now ≤ 8) × (get_or prefix.now (length prefix.now - 1) 0 < 255) }
    ensures { result ≡ high_key prefix.now }
{
    let last = prefix.len() - 1;
    let mut key = filled(prefix);
    key[last] = prefix[last] + 1;
    u64::read(&key, 0)
}
