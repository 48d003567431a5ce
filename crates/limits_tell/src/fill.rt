// Trays filled by number: live records whose keys count up, with a value that ends as its key does.
ghost use Rattle.std.specs.Prelude.{◌≡◌, ◌<◌, ◌≤◌, length};

use number::BigEndian;

// A record with its key. What is not stored here is zero in a tray that begins as zeros.
fn fill_record(bytes: &mut [u8], key: u64)
    requires { length bytes.old ≡ 25 }
{
    key.write(bytes, 0);
    bytes[24] = (key % 256) as u8;
}

// A record at each 25 bytes from a place on, the keys counted up from the first.
pub fn fill_records(tray: &mut [u8], from: usize, first: u64)
    requires from_in_bounds { from ≤ length tray.old }
    requires first_bound { first ≤ 65535 }
{
    for (i, record) in tray[from..].chunks_exact_mut(25).enumerate() {
        fill_record(record, first + i as u64);
    }
}

// The head of a tray whose records begin at the given place: each run has 4,096.
fn fill_head(tray: &mut [u8], runs: u8, records: usize)
    requires tray_nonzero { 0 < length tray.old }
    requires records_in_bounds { records ≤ length tray.old }
    requires records_bound { records ≤ 130 }
{
    tray[0] = runs;
    for at in (4..records).step_by(2) {
        tray[at] = 16;
    }
}

// A tray of runs of 4,096 records, the keys counted up from 0 over the whole tray.
pub fn fill_tray(tray: &mut [u8], runs: u8, records: usize)
    requires tray_nonzero { 0 < length tray.old }
    requires records_in_bounds { records ≤ length tray.old }
    requires records_bound { records ≤ 130 }
{
    fill_head(tray, runs, records);
    fill_records(tray, records, 0);
}

// How many bytes of an output are another than 170, which all of them are before a call.
pub fn changed(out: &[u8]) -> usize {
    out.iter().filter(|b| **b != 170).count()
}
