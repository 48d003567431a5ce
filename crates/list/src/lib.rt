// What every listing stands on: the records that a segment names, gathered for any walk, and records written to the output.
#![tactic(auto)]

pub mod enter;
pub mod points;
pub mod stops;

ghost use Rattle.std.specs.Prelude.{◌≤◌};

use walk::Indexed;
use walk::cursor::Cursor;

// What a listing is lent: a tray and its index, and the cursor where it begins, which stands in a segment or is the end.
#[derive(Clone, Copy)]
pub struct Listing<'a> {
    pub indexed: &'a Indexed<'a>,
    pub from: &'a Cursor,
    ghost inside: { from.now.selector ≤ indexed.now.index.size },
}
