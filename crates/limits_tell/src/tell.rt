// One call, one line: its name and two numbers that say which case it is, a colon, the number and the figure, and what else it hands over.
use crate::fill::changed;
use kanyorith::{
    kanyorith_build, kanyorith_check_index, kanyorith_check_tray, kanyorith_fold, kanyorith_get,
    kanyorith_next, kanyorith_page, kanyorith_seek, kanyorith_sheet,
};

// One number more in a line.
pub fn more(n: u64) {
    io::write_all(1, b" ");
    io::print_decimal(1, n);
}

// A line up to the figure. It ends the line before it.
fn say(name: &[u8], a: u64, b: u64, number: u32, figure: u64) {
    io::write_all(1, b"\n");
    io::write_all(1, name);
    more(a);
    more(b);
    io::write_all(1, b":");
    more(u64::from(number));
    more(figure);
}

// The last byte, or 0 where there is none.
fn last(bytes: &[u8]) -> u64 {
    bytes.last().map_or(0, |b| u64::from(*b))
}

// The segment and the selector where a cursor stands.
fn stand(cursor: &[u16; 66]) {
    more(u64::from(cursor[0]) * 65536 + u64::from(cursor[1]));
    more(u64::from(cursor[2]));
}

// Check tray: the runs, the bytes.
pub fn tell_tray(runs: u64, tray: &[u8]) {
    let mut figure: u64 = 0;
    let n = kanyorith_check_tray(tray, &mut figure);
    say(b"tray, runs and bytes", runs, tray.len() as u64, n, figure);
}

// Check index: the bytes of the tray and of the index.
pub fn tell_index(tray: &[u8], index: &[u8]) {
    let mut figure: u64 = 0;
    let n = kanyorith_check_index(tray, index, &mut figure);
    say(
        b"index, bytes of tray and index",
        tray.len() as u64,
        index.len() as u64,
        n,
        figure,
    );
}

// Build: D, the room; the bytes changed.
pub fn tell_build(tray: &[u8], d: u64, out: &mut [u8]) {
    let mut figure: u64 = 0;
    let n = kanyorith_build(tray, d, out, &mut figure);
    say(b"build, D and room", d, out.len() as u64, n, figure);
    more(changed(out) as u64);
}

// Sheet: the prefix's length, its last byte; the bytes changed, the room.
pub fn tell_sheet(tray: &[u8], index: &[u8], prefix: &[u8], out: &mut [u8]) {
    let mut figure: u64 = 0;
    let n = kanyorith_sheet(tray, index, prefix, out, &mut figure);
    say(
        b"sheet, prefix bytes and the last",
        prefix.len() as u64,
        last(prefix),
        n,
        figure,
    );
    more(changed(out) as u64);
    more(out.len() as u64);
}

// Fold: a, b; the bytes changed, the room.
pub fn tell_fold(tray: &[u8], a: u64, b: u64, out: &mut [u8]) {
    let mut figure: u64 = 0;
    let n = kanyorith_fold(tray, a, b, out, &mut figure);
    say(b"fold, a and b", a, b, n, figure);
    more(changed(out) as u64);
    more(out.len() as u64);
}

// Get: the bytes of the index, the key's last byte; the value's last byte, which is 170 where none was handed over.
pub fn tell_get(tray: &[u8], index: &[u8], key: &[u8; 8]) {
    let mut figure: u64 = 0;
    let mut value = [170u8; 16];
    let n = kanyorith_get(tray, index, key, &mut value, &mut figure);
    say(
        b"get, index bytes and last of key",
        index.len() as u64,
        u64::from(key[7]),
        n,
        figure,
    );
    more(u64::from(value[15]));
}

// Seek: the same; run, place, and where the cursor stands.
pub fn tell_seek(tray: &[u8], index: &[u8], key: &[u8; 8]) {
    let mut figure: u64 = 0;
    let mut run: u8 = 0;
    let mut place: u16 = 0;
    let mut cursor = [0u16; 66];
    let n = kanyorith_seek(
        tray,
        index,
        key,
        &mut run,
        &mut place,
        &mut cursor,
        &mut figure,
    );
    say(
        b"seek, index bytes and last of key",
        index.len() as u64,
        u64::from(key[7]),
        n,
        figure,
    );
    more(u64::from(run));
    more(u64::from(place));
    stand(&cursor);
}

// Next: the segment and the selector given, and the same after it.
pub fn tell_next(tray: &[u8], index: &[u8], a: u64, b: u64, cursor: &mut [u16; 66]) {
    let mut figure: u64 = 0;
    let mut run: u8 = 0;
    let mut place: u16 = 0;
    let n = kanyorith_next(tray, index, &mut run, &mut place, cursor, &mut figure);
    say(b"next, segment and selector", a, b, n, figure);
    stand(cursor);
}

// Page: the bytes of the index, the room; the records, the bytes changed, and where the cursor stands.
pub fn tell_page(tray: &[u8], index: &[u8], cursor: &mut [u16; 66], out: &mut [u8]) {
    let mut figure: u64 = 0;
    let mut count: u64 = 0;
    let n = kanyorith_page(tray, index, cursor, out, &mut count, &mut figure);
    say(
        b"page, index bytes and room",
        index.len() as u64,
        out.len() as u64,
        n,
        figure,
    );
    more(count);
    more(changed(out) as u64);
    stand(cursor);
}
