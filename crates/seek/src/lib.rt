// The call seek: it tests the frames and every place that it follows, not the whole index.
#![tactic(auto)]

pub mod get;

ghost use Rattle.std.specs.Prelude.{◌≡◌};
ghost use Rattle.answers.specs.Seek.{seek_answer};

use answers::Stand;
use number::BigEndian;
use refusal::Refusal;
use seek_walk::seek_for;
use walk::Indexed;
use walk::cursor::{Cursor, Sighting};

// Seek: the first record at or above a key, or the end; refusals 1, 4, 10.
pub fn seek(t: &[u8], x: &[u8], key: &[u8; 8]) -> Result<Stand, Refusal>
    ensures { result ≡ seek_answer t.now x.now key.now }
{
    let indexed = Indexed::open(t, x)?;
    let Some(Sighting { run, place, cursor }) = seek_for(&indexed, u64::read(key, 0))? else {
        return Ok(Stand::End(Cursor::end(indexed.index.segments)));
    };
    Ok(Stand::Found(run, place, cursor))
}
