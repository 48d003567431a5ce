// The public face (docs/RULES.md, "The calls"): one call for each of its calls, for C and Rust alike. Every call takes any bytes and ends. It
// answers the number of a refusal, or 0, and its figure beside it; what each call promises stands in `specs/Promises.antt`, and what follows
// from the promises in `specs/Theorems.antt`. The declarations for C are in `include/kanyorith.h`.
#![tactic(auto)]

mod cursor;
mod told;

ghost use Rattle.kanyorith.specs.Promises.{CheckTray, CheckIndex, Build, Get, Sought, Seek, Next, Page, Sheet, Fold};

use crate::cursor::{cursor_in, put_cursor};
use crate::told::{count, count_own, narrow, refuse};
use answers::{Rest, Stand};
use build::build;
use fold::fold;
use index_check::check_index;
use next::calls::next;
use page::page;
use refusal::Refusal;
use seek::get::get;
use seek::seek;
use sheet::sheet;
use tray::RunNo;
use tray_check::check_tray;

// Check tray: 0 and the records, or 1, 3 or 2.
pub fn kanyorith_check_tray(tray: &[u8], figure: &mut u64) -> u32
    ensures { CheckTray tray.now result figure.new }
{
    count(check_tray(tray), figure)
}

// Check index: 0 and the segments, or 1, 3 or 2, 4, 5.
pub fn kanyorith_check_index(tray: &[u8], index: &[u8], figure: &mut u64) -> u32
    ensures { CheckIndex tray.now index.now result figure.new }
{
    count(check_index(tray, index), figure)
}

// Build: 0 and the bytes written, or 1, 6, 3 or 2, 7.
pub fn kanyorith_build(tray: &[u8], d: u64, out: &mut [u8], figure: &mut u64) -> u32
    ensures { Build tray.now d out.old result figure.new out.new }
{
    count_own(build(tray, narrow(d), out), 6, d, figure)
}

// Get: 0 and 1 with the value, or 0 and 0 where the key is absent, or 1, 4, 10.
pub fn kanyorith_get(
    tray: &[u8],
    index: &[u8],
    key: &[u8; 8],
    value: &mut [u8; 16],
    figure: &mut u64,
) -> u32
    ensures { Get tray.now index.now key.now value.old result figure.new value.new }
{
    match get(tray, index, key) {
        Ok(Some(v)) => {
            *value = v;
            *figure = 1;
            0
        }
        Ok(None) => {
            *figure = 0;
            0
        }
        Err(r) => refuse(r, figure),
    }
}

// An answer of seek or next handed over: 0 and 1 with run, place and cursor, or 0 and 0 with the cursor of the end, or its refusal, which leaves
// them as they were. It is lent, so that its cursor is copied once, to the caller.
#[inline(always)]
fn hand_over(
    s: &Result<Stand, Refusal>,
    run: &mut u8,
    place: &mut u16,
    cursor: &mut [u16; 66],
    figure: &mut u64,
) -> u32
    ensures { Sought s.now run.old place.old cursor.old result figure.new run.new place.new cursor.new }
{
    match s {
        Ok(Stand::Found(n, p, c)) => {
            *run = n.0;
            *place = p.0;
            *figure = 1;
            put_cursor(c, cursor);
            0
        }
        Ok(Stand::End(c)) => {
            *figure = 0;
            put_cursor(c, cursor);
            0
        }
        Err(r) => refuse(*r, figure),
    }
}

// Seek: 0 and 1 with run, place and cursor, or 0 and 0 with the cursor of the end, or 1, 4, 10.
pub fn kanyorith_seek(
    tray: &[u8],
    index: &[u8],
    key: &[u8; 8],
    run: &mut u8,
    place: &mut u16,
    cursor: &mut [u16; 66],
    figure: &mut u64,
) -> u32
    ensures { Seek tray.now index.now key.now cursor.old run.old place.old result figure.new run.new place.new cursor.new }
{
    hand_over(&seek(tray, index, key), run, place, cursor, figure)
}

// Next: the same from the cursor on, or 1, 4, 11, 10.
pub fn kanyorith_next(
    tray: &[u8],
    index: &[u8],
    run: &mut u8,
    place: &mut u16,
    cursor: &mut [u16; 66],
    figure: &mut u64,
) -> u32
    ensures { Next tray.now index.now cursor.old run.old place.old result figure.new run.new place.new cursor.new }
{
    let from = cursor_in(cursor);
    hand_over(&next(tray, index, from), run, place, cursor, figure)
}

// Page: 0 and 1 where a record is unwritten, with its cursor, or 0 and 0 with the cursor of the end, or 1, 4, 11, 10; and how many records it
// wrote.
pub fn kanyorith_page(
    tray: &[u8],
    index: &[u8],
    cursor: &mut [u16; 66],
    out: &mut [u8],
    count: &mut u64,
    figure: &mut u64,
) -> u32
    ensures { Page tray.now index.now cursor.old out.old result figure.new count.new cursor.new out.new }
{
    let from = cursor_in(cursor);
    let p = page(tray, index, from, out);
    *count = p.count as u64;
    match &p.rest {
        Ok(Rest::More(c)) => {
            *figure = 1;
            put_cursor(c, cursor);
            0
        }
        Ok(Rest::End(c)) => {
            *figure = 0;
            put_cursor(c, cursor);
            0
        }
        Err(r) => refuse(*r, figure),
    }
}

// Sheet: 0 and the records listed, or 1, 4, 8, 9, 10, 7.
pub fn kanyorith_sheet(
    tray: &[u8],
    index: &[u8],
    prefix: &[u8],
    out: &mut [u8],
    figure: &mut u64,
) -> u32
    ensures { Sheet tray.now index.now prefix.now out.old result figure.new out.new }
{
    count(sheet(tray, index, prefix, out), figure)
}

// Fold: 0 and the bytes written, or 1, 8, 3 or 2, 12, 7.
pub fn kanyorith_fold(tray: &[u8], a: u64, b: u64, out: &mut [u8], figure: &mut u64) -> u32
    ensures { Fold tray.now a b out.old result figure.new out.new }
{
    let folded = fold(tray, RunNo(narrow(a)), RunNo(narrow(b)), out);
    count_own(folded, 8, b, figure)
}
