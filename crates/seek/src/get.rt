// Get: the value of a key, or none.
ghost use Rattle.std.specs.Prelude.{◌≡◌};
ghost use Rattle.answers.specs.Get.{get_answer};

use number::BigEndian;
use refusal::Refusal;
use seek_walk::seek_for;
use tray::run::{key_at, value_at};
use walk::Indexed;
use walk::cursor::Sighting;

// Get: the value where a seek finds the very key, and else none; refusals 1, 4, 10. The first record where the walk stays decides.
pub fn get(t: &[u8], x: &[u8], key: &[u8; 8]) -> Result<Option<[u8; 16]>, Refusal>
    ensures { result ≡ get_answer t.now x.now key.now }
{
    let indexed = Indexed::open(t, x)?;
    let key = u64::read(key, 0);
    let Some(Sighting { run, place, .. }) = seek_for(&indexed, key)? else {
        return Ok(None);
    };
    let bytes = indexed.tray.run(run);
    if key_at(bytes, place) == key {
        let value = value_at(bytes, place);
        return Ok(Some(value));
    }
    Ok(None)
}
