// What get, seek, next, page and sheet answer for every input (docs/RULES.md, "Reading through an index"). There is no code here: the definitions are in
// specs/.
#![tactic(auto)]

use refusal::Refusal;
use tray::{Place, RunNo};
use walk::cursor::Cursor;

// Where seek and next come to: a record's run and place, with the cursor that stands there, or the end with its cursor.
#[derive(Clone, Copy)]
pub enum Stand {
    Found(RunNo, Place, Cursor),
    End(Cursor),
}

// Where a page stops: at a record that is not written, or at the end; with the cursor that stands there.
#[derive(Clone, Copy)]
pub enum Rest {
    More(Cursor),
    End(Cursor),
}

// A page: how many records were written, and where it stops or why it is refused.
#[derive(Clone, Copy)]
pub struct Paged {
    pub count: usize,
    pub rest: Result<Rest, Refusal>,
}
