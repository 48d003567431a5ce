// Runs the limits (docs/RULES.md, "Run by a program") through the public calls, a line a case.
#![tactic(auto)]

ghost use Rattle.std.specs.Prelude.{◌<◌, ◌≤◌, length};

use limits_tell::fill::{fill_records, fill_tray};
use limits_tell::tell::{
    more, tell_build, tell_fold, tell_get, tell_index, tell_next, tell_page, tell_seek, tell_sheet,
    tell_tray,
};

// Two runs: 00fe..01, 00fe..02 gone; 00fe..01, 00fe..03, 0100..00. The values of live records end in 1 to 4.
const TRAY: [u8; 133] = [
    2, 0, 0, 0, 0, 2, 0, 3, 0, 254, 0, 0, 0, 0, 0, 1, 0, 0, 0, 0, 0, 0, 0, 0, 0, 0, 0, 0, 0, 0, 0,
    0, 1, 0, 254, 0, 0, 0, 0, 0, 2, 1, 0, 0, 0, 0, 0, 0, 0, 0, 0, 0, 0, 0, 0, 0, 0, 0, 0, 254, 0,
    0, 0, 0, 0, 1, 0, 0, 0, 0, 0, 0, 0, 0, 0, 0, 0, 0, 0, 0, 0, 0, 2, 0, 254, 0, 0, 0, 0, 0, 3, 0,
    0, 0, 0, 0, 0, 0, 0, 0, 0, 0, 0, 0, 0, 0, 0, 3, 1, 0, 0, 0, 0, 0, 0, 0, 0, 0, 0, 0, 0, 0, 0, 0,
    0, 0, 0, 0, 0, 0, 0, 0, 4,
];

// Its index at D 2: an anchor, two offsets and two selectors a line.
const INDEX: [u8; 50] = [
    2, 2, 0, 0, 0, 0, 0, 3, 0, 254, 0, 0, 0, 0, 0, 1, 0, 0, 0, 0, 0x00, 0x81, 0, 254, 0, 0, 0, 0,
    0, 2, 0, 1, 0, 1, 0x40, 0x01, 1, 0, 0, 0, 0, 0, 0, 0, 0, 2, 0, 2, 0x01, 0x3f,
];

// Runs without records: 1 to 63.
fn runs() {
    let mut t = [0u8; 132];
    for (runs, size) in [(0u8, 4), (1, 6), (63, 130), (64, 132)] {
        t[0] = runs;
        tell_tray(u64::from(runs), &t[..size]);
    }
}

// Records of a run: up to 4,096. The second tray has 4,097.
fn counts(most: &mut [u8; 102406], over: &mut [u8; 102431]) {
    fill_tray(most, 1, 6);
    tell_tray(1, most);
    fill_tray(over, 1, 6);
    over[5] = 1;
    tell_tray(1, over);
}

// The size of a segment: H to 128, whatever a caller asks for.
fn sizes(t: &[u8]) {
    for d in [0, 1, 2, 128, 129, 255, 256, 258, 18446744073709551615] {
        let mut out = [170u8; 148];
        tell_build(t, d, &mut out);
    }
}

// Output one byte short, and exact.
fn rooms(t: &[u8], x: &[u8]) {
    for room in [49, 50] {
        tell_build(t, 2, &mut [170u8; 50][..room]);
    }
    for room in [47, 48] {
        tell_sheet(t, x, b"\x00\xfe", &mut [170u8; 48][..room]);
    }
    for room in [105, 106] {
        tell_fold(t, 0, 1, &mut [170u8; 106][..room]);
    }
}

fn prefix(t: &[u8], x: &[u8], p: &[u8]) {
    let mut out = [170u8; 72];
    tell_sheet(t, x, p, &mut out);
}

// Prefixes: 1 to 8 bytes, the last one below 255. The length is judged first.
fn prefixes(t: &[u8], x: &[u8]) {
    let all: [&[u8]; 6] = [
        b"",
        b"\x00\xfe",
        b"\x00\xff",
        b"\x00\xfe\x00\x00\x00\x00\x00\x03",
        b"\x00\xfe\x00\x00\x00\x00\x00\xff",
        b"\x00\xfe\x00\x00\x00\x00\x00\x03\xff",
    ];
    for p in all {
        prefix(t, x, p);
    }
}

// Bounds of a fold: a at most b, b below H.
fn bounds(t: &[u8]) {
    for (a, b) in [
        (0, 0),
        (1, 0),
        (0, 2),
        (256, 1),
        (0, 256),
        (0, 18446744073709551615),
    ] {
        let mut out = [170u8; 133];
        tell_fold(t, a, b, &mut out);
    }
}

// A fold of two runs of 4,096 records. The keys of the second one count up from the first given.
fn merge(t: &mut [u8; 204808], first: u64, out: &mut [u8])
    requires { first ≤ 65535 }
{
    fill_tray(t, 2, 8);
    fill_records(t, 102408, first);
    tell_fold(t, 0, 1, out);
    more(first);
}

// A folded run: up to 4,096 records. The second run has other keys, then the first one's raised by one, then the same.
fn merges(t: &mut [u8; 204808], less: &mut [u8; 102405], exact: &mut [u8; 102406]) {
    merge(t, 4096, exact);
    merge(t, 1, exact);
    merge(t, 0, less);
    merge(t, 0, exact);
    tell_tray(1, exact);
}

// Next from a cursor with a place of one run.
fn next_at(t: &[u8], x: &[u8], segment: u16, selector: u16, run: usize, place: u16)
    requires { run < 63 }
{
    let mut cursor = [0u16; 66];
    cursor[1] = segment;
    cursor[2] = selector;
    cursor[run + 3] = place;
    tell_next(t, x, u64::from(segment), u64::from(selector), &mut cursor);
    more(run as u64);
    more(u64::from(place));
}

// Cursors: the end and a record, and what is beside them.
fn cursors(t: &[u8], x: &[u8]) {
    for (segment, selector, place) in [
        (3, 0, 0),
        (3, 1, 0),
        (3, 0, 1),
        (4, 0, 0),
        (0, 0, 0),
        (0, 2, 0),
        (0, 256, 0),
    ] {
        next_at(t, x, segment, selector, 0, place);
    }
    for run in [0, 2, 62] {
        next_at(t, x, 0, 0, run, 1);
    }
}

// A page of one record.
fn page_one(t: &[u8], x: &[u8], cursor: &mut [u16; 66]) {
    let mut out = [170u8; 24];
    tell_page(t, x, cursor, &mut out);
}

// The cursor of the highest numbers.
fn highest(t: &[u8], x: &[u8]) {
    let mut cursor = [65535u16; 66];
    tell_next(t, x, 4294967295, 65535, &mut cursor);
    page_one(t, x, &mut cursor);
}

// Pages: a record for each 24 bytes, up to the end.
fn pages(t: &[u8], x: &[u8]) {
    let mut cursor = [0u16; 66];
    let mut none = [170u8; 0];
    tell_page(t, x, &mut cursor, &mut none);
    let mut short = [170u8; 23];
    tell_page(t, x, &mut cursor, &mut short);
    for _ in 0..4 {
        page_one(t, x, &mut cursor);
    }
}

// Heads without segments: the first says none, the second 4,294,967,295.
fn heads(t: &[u8], x: &[u8]) {
    tell_index(t, x);
    tell_index(t, b"\x02\x02\x00\x00\x00\x00\x00\x00");
    tell_index(t, b"\x02\x02\x00\x00\xff\xff\xff\xff");
    tell_get(
        t,
        b"\x02\x02\x00\x00\xff\xff\xff\xff",
        b"\x00\xfe\x00\x00\x00\x00\x00\x01",
    );
}

// An index in which selector 1 of segment 1 has run H.
fn lost(t: &[u8], x: &[u8]) {
    tell_index(t, x);
    tell_get(t, x, b"\x00\xfe\x00\x00\x00\x00\x00\x01");
    tell_get(t, x, b"\x00\xfe\x00\x00\x00\x00\x00\x03");
    tell_seek(t, x, b"\x00\xfe\x00\x00\x00\x00\x00\x03");
    prefix(t, x, b"\x00\xfe");
    let mut cursor = [0u16; 66];
    tell_next(t, x, 0, 0, &mut cursor);
    let mut out = [170u8; 72];
    tell_page(t, x, &mut cursor, &mut out);
}

// The longest tray and a byte more, then without this byte.
fn longest(t: &[u8], x: &mut [u8; 528200])
    requires { 0 < length t.now }
{
    tell_tray(63, t);
    let e = t.len() - 1;
    read_longest(&t[..e], x);
}

fn fill_longest(t: &mut [u8; 6451331], x: &mut [u8; 528200]) {
    fill_tray(t, 63, 130);
    longest(t, x);
}

fn read_longest(t: &[u8], x: &mut [u8; 528200]) {
    tell_tray(63, t);
    tell_build(t, 128, x);
    tell_index(t, x);
    tell_get(t, x, b"\x00\x00\x00\x00\x00\x03\xef\xff");
    tell_seek(t, x, b"\x00\x00\x00\x00\x00\x03\xef\xff");
    x[528199] = 127;
    tell_get(t, x, b"\x00\x00\x00\x00\x00\x03\xef\xff");
}

fn all(t: &[u8], x: &[u8]) {
    runs();
    sizes(t);
    rooms(t, x);
    prefixes(t, x);
    bounds(t);
    cursors(t, x);
    highest(t, x);
    pages(t, x);
    heads(t, x);
}

fn large() {
    let mut most = [0u8; 102406];
    let mut over = [0u8; 102431];
    counts(&mut most, &mut over);
    let mut two = [0u8; 204808];
    let mut less = [170u8; 102405];
    let mut exact = [170u8; 102406];
    merges(&mut two, &mut less, &mut exact);
    let mut tray = [0u8; 6451331];
    let mut index = [170u8; 528200];
    fill_longest(&mut tray, &mut index);
}

fn main() {
    io::write_all(1, b"Limits");
    let t = TRAY;
    let mut x = INDEX;
    all(&t, &x);
    x[35] = 2;
    lost(&t, &x);
    large();
    io::write_all(1, b"\n");
}
