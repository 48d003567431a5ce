// Reading through an index: what every walk is lent, cursors, and where a walk starts (docs/RULES.md, "Reading through an index").
#![tactic(auto)]

pub mod cursor;
pub mod open;
pub mod start;

ghost use Rattle.walk.specs.Code.{Walking};

use index::Index;
use tray::Tray;

// A tray and its index, where both frames fit: what every walk is lent.
#[derive(Clone, Copy)]
pub struct Indexed<'a> {
    pub tray: Tray<'a>,
    pub index: Index<'a>,
    ghost walking: { Walking tray.bytes.now index.bytes.now index.runs index.size index.segments tray.counts },
}
