// The call next: it tests the frames, the cursor and every place that it follows.
ghost use Rattle.std.specs.Prelude.{◌≡◌};
ghost use Rattle.answers.specs.Next.{next_answer};

use crate::next::next_from;
use answers::Stand;
use refusal::Refusal;
use walk::Indexed;
use walk::cursor::Cursor;
use walk_cursor::belongs;

// Next: the first visible record after the cursor's, or the end; refusals 1, 4, 11, 10.
pub fn next(t: &[u8], x: &[u8], from: Cursor) -> Result<Stand, Refusal>
    ensures { result ≡ next_answer t.now x.now from }
{
    let indexed = Indexed::open(t, x)?;
    let g = from.segment.0;
    if !belongs(&indexed.index, &from) {
        return Err(Refusal::Cursor(u64::from(g)));
    }
    if g < indexed.index.segments {
        return next_from(indexed.tray.bytes, &indexed.index, &from);
    }
    Ok(Stand::End(Cursor::end(indexed.index.segments)))
}
