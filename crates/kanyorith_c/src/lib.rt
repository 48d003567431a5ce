// The calls for C, with the names and the contracts that they have in `kanyorith`: each hands its arguments on. Their declarations for C are in
// `include/kanyorith.h`.
#![tactic(auto)]

ghost use Rattle.kanyorith.specs.Promises.{CheckTray, CheckIndex, Build, Get, Seek, Next, Page, Sheet, Fold};

// Check tray: 0 and the records, or 1, 3 or 2.
#[unsafe(no_mangle)]
pub extern "C" fn kanyorith_check_tray(tray: &[u8], figure: &mut u64) -> u32
    ensures { CheckTray tray.now result figure.new }
{
    kanyorith::kanyorith_check_tray(tray, figure)
}

// Check index: 0 and the segments, or 1, 3 or 2, 4, 5.
#[unsafe(no_mangle)]
pub extern "C" fn kanyorith_check_index(tray: &[u8], index: &[u8], figure: &mut u64) -> u32
    ensures { CheckIndex tray.now index.now result figure.new }
{
    kanyorith::kanyorith_check_index(tray, index, figure)
}

// Build: 0 and the bytes written, or 1, 6, 3 or 2, 7.
#[unsafe(no_mangle)]
pub extern "C" fn kanyorith_build(tray: &[u8], d: u64, out: &mut [u8], figure: &mut u64) -> u32
    ensures { Build tray.now d out.old result figure.new out.new }
{
    kanyorith::kanyorith_build(tray, d, out, figure)
}

// Get: 0 and 1 with the value, or 0 and 0 where the key is absent, or 1, 4, 10.
#[unsafe(no_mangle)]
pub extern "C" fn kanyorith_get(
    tray: &[u8],
    index: &[u8],
    key: &[u8; 8],
    value: &mut [u8; 16],
    figure: &mut u64,
) -> u32
    ensures { Get tray.now index.now key.now value.old result figure.new value.new }
{
    kanyorith::kanyorith_get(tray, index, key, value, figure)
}

// Seek: 0 and 1 with run, place and cursor, or 0 and 0 with the cursor of the end, or 1, 4, 10.
#[unsafe(no_mangle)]
pub extern "C" fn kanyorith_seek(
    tray: &[u8],
    index: &[u8],
    key: &[u8; 8],
    run: &mut u8,
    place: &mut u16,
    cursor: &mut [u16; 66],
    figure: &mut u64,
) -> u32
    ensures { Seek tray.now index.now key.now cursor.old run.old place.old result figure.new run.new place.new cursor.new }
{
    kanyorith::kanyorith_seek(tray, index, key, run, place, cursor, figure)
}

// Next: the same from the cursor on, or 1, 4, 11, 10.
#[unsafe(no_mangle)]
pub extern "C" fn kanyorith_next(
    tray: &[u8],
    index: &[u8],
    run: &mut u8,
    place: &mut u16,
    cursor: &mut [u16; 66],
    figure: &mut u64,
) -> u32
    ensures { Next tray.now index.now cursor.old run.old place.old result figure.new run.new place.new cursor.new }
{
    kanyorith::kanyorith_next(tray, index, run, place, cursor, figure)
}

// Page: 0 and 1 where a record is unwritten, with its cursor, or 0 and 0 with the cursor of the end, or 1, 4, 11, 10; and how many records it
// wrote.
#[unsafe(no_mangle)]
pub extern "C" fn kanyorith_page(
    tray: &[u8],
    index: &[u8],
    cursor: &mut [u16; 66],
    out: &mut [u8],
    count: &mut u64,
    figure: &mut u64,
) -> u32
    ensures { Page tray.now index.now cursor.old out.old result figure.new count.new cursor.new out.new }
{
    kanyorith::kanyorith_page(tray, index, cursor, out, count, figure)
}

// Sheet: 0 and the records listed, or 1, 4, 8, 9, 10, 7.
#[unsafe(no_mangle)]
pub extern "C" fn kanyorith_sheet(
    tray: &[u8],
    index: &[u8],
    prefix: &[u8],
    out: &mut [u8],
    figure: &mut u64,
) -> u32
    ensures { Sheet tray.now index.now prefix.now out.old result figure.new out.new }
{
    kanyorith::kanyorith_sheet(tray, index, prefix, out, figure)
}

// Fold: 0 and the bytes written, or 1, 8, 3 or 2, 12, 7.
#[unsafe(no_mangle)]
pub extern "C" fn kanyorith_fold(
    tray: &[u8],
    a: u64,
    b: u64,
    out: &mut [u8],
    figure: &mut u64,
) -> u32
    ensures { Fold tray.now a b out.old result figure.new out.new }
{
    kanyorith::kanyorith_fold(tray, a, b, out, figure)
}
