// The index of a tray: its frame, and where its segments lie (docs/RULES.md, "The index").
#![tactic(auto)]

pub mod frame;

ghost use Rattle.std.specs.Prelude.{◌≤◌};
ghost use Rattle.index.specs.Layout.Code.{Laid};

// The number of a segment, from 0.
#[derive(Clone, Copy, PartialEq, Eq)]
pub struct SegmentNo(pub u32);

// An index for a tray of so many runs: its bytes, the segment size, and how many segments it has, which fill it. It is lent to whoever reads it, and
// what its head says goes with it.
#[derive(Clone, Copy)]
pub struct Index<'a> {
    pub bytes: &'a [u8],
    pub runs: u8,
    pub size: u8,
    pub segments: u32,
    ghost frame: { Laid bytes.now runs size segments },
    ghost byte: { size ≤ 255 },
}
