// The tray: its frame, and its runs handed on as stretches of their own (docs/FORMAT.md, "The tray").
#![tactic(auto)]

pub mod frame;
pub mod run;

ghost use Rattle.tray.specs.Frame.{FrameOf};

// The number of a run: 0 is the newest.
#[derive(Clone, Copy, PartialEq, Eq)]
pub struct RunNo(pub u8);

// The place of a record in its run, from 0.
#[derive(Clone, Copy, PartialEq, Eq)]
pub struct Place(pub u16);

// A tray whose frame fits: its bytes, how many runs it has, how many records each run has, and where each starts; after the last one, where the
// tray ends. It is lent to whoever reads it, and what its frame says goes with it.
#[derive(Clone, Copy)]
pub struct Tray<'a> {
    pub bytes: &'a [u8],
    pub runs: u8,
    pub counts: [u16; 63],
    pub starts: [usize; 64],
    ghost frame: { FrameOf bytes.now runs counts starts },
}

// The head of a record: what a check reads of it.
#[derive(Clone, Copy)]
pub struct Head {
    pub key: u64,
    pub kind: u8,
}

// What is wrong with the first wrong record of a run.
#[derive(Clone, Copy, PartialEq, Eq)]
pub enum Fault {
    // Its kind is above 1, or it is gone and has a value.
    WrongKind(Place),
    // Its key is not above the one before it.
    WrongKey(Place),
}
