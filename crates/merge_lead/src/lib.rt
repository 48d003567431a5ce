// Which run comes next: the first of those with the least key. Of each block of eight runs that one is kept, so that a record taken
// renews one block. The key after the next one is kept too, so that none is waited for.
#![tactic(auto)]

ghost use Rattle.std.specs.Prelude.{◌≡◌, cond, ◌+◌, ◌*◌, ◌≤◌, ◌<◌, length, ltb};
ghost use Rattle.merge_lead.specs.Heads.{Ended};
ghost use Rattle.merge_lead.specs.Heads.Leads.{First, Half, Bare, Kept, Ahead, FirstLeft, Heading, Comes};

use tray::Tray;

// A key, and the first run that has it.
#[derive(Clone, Copy)]
pub struct Lead {
    pub key: u64,
    pub run: u8,
}

// What is kept of the runs of a merge: the next key of each and the one after it, and of each block of eight runs the least next key and the
// first run that has it. Past the runs the highest number is kept.
#[derive(Drop)]
pub struct Heads {
    pub keys: [u64; 64],
    pub nexts: [u64; 64],
    pub tops: [u64; 8],
    pub firsts: [u8; 8],
}

// The one with the lower key, and of equal ones the first.
fn ahead(a: Lead, b: Lead) -> Lead
    ensures { result ≡ cond (ltb b.key a.key) b a }
{
    if b.key < a.key { b } else { a }
}

// The number at a place.
fn lead_at(keys: &[u64], r: u8) -> Lead
    requires { r < length keys.now }
    ensures { First keys.now r (r + 1) result.key result.run }
{
    Lead {
        key: keys[usize::from(r)],
        run: r,
    }
}

// The first of four, and of eight.
fn least_of_4(keys: &[u64], r: u8) -> Lead
    requires { (r + 4 ≤ length keys.now) × (length keys.now ≤ 64) }
    ensures { First keys.now r (r + 4) result.key result.run }
{
    let a = ahead(lead_at(keys, r), lead_at(keys, r + 1));
    let b = ahead(lead_at(keys, r + 2), lead_at(keys, r + 3));
    ahead(a, b)
}

fn least_of_8(keys: &[u64], r: u8) -> Lead
    requires { (r + 8 ≤ length keys.now) × (length keys.now ≤ 64) }
    ensures { First keys.now r (r + 8) result.key result.run }
{
    ahead(least_of_4(keys, r), least_of_4(keys, r + 4))
}

// The first run that is not at its end.
fn first_left(tray: &Tray, places: &[u16; 63], h: u8) -> Option<u8>
    requires { h ≤ 63 }
    ensures { FirstLeft tray.now.counts places.now h result }
{
    for r in 0..h {
        let i = usize::from(r);
        if places[i] < tray.counts[i] {
            return Some(r);
        }
    }
    None
}

impl Heads {
    // Nothing kept yet.
    pub fn new() -> Heads
        ensures { Bare result }
    {
        Heads {
            keys: [u64::MAX; 64],
            nexts: [u64::MAX; 64],
            tops: [u64::MAX; 8],
            firsts: [u8::MAX; 8],
        }
    }

    // The first of block b, kept, of h runs in all. Up to four are the first half of the one block.
    pub fn keep(&mut self, h: u8, b: u8)
        requires { (b < 8) × Half self.old.keys h b }
        ensures kept { Kept self.old.keys b self.old.tops self.old.firsts self.new.tops self.new.firsts }
        ensures same { (self.new.keys ≡ self.old.keys) × (self.new.nexts ≡ self.old.nexts) }
    {
        let l = if h <= 4 {
            least_of_4(&self.keys, 0)
        } else {
            least_of_8(&self.keys, 8 * b)
        };
        let i = usize::from(b);
        self.tops[i] = l.key;
        self.firsts[i] = l.run;
    }

    // The first of h runs. Up to eight are one block.
    pub fn leader(&self, h: u8) -> Lead
        requires { h ≤ 63 }
        ensures { Ahead self.now.tops self.now.firsts h result.key result.run }
    {
        if h <= 8 {
            return Lead {
                key: self.tops[0],
                run: self.firsts[0],
            };
        }
        let l = least_of_8(&self.tops, 0);
        Lead {
            key: l.key,
            run: self.firsts[usize::from(l.run)],
        }
    }

    // The run that comes next, with its key, or none. The runs from h on are at their ends and not looked at. The highest number is kept of runs
    // at their ends too.
    pub fn next(&self, tray: &Tray, places: &[u16; 63], h: u8) -> Option<Lead>
        requires heading { Heading tray.now places.now self.now }
        requires ended { Ended tray.now.bytes.now places.now h }
        ensures { Comes tray.now places.now result }
    {
        let l = self.leader(h);
        if l.key < u64::MAX {
            return Some(l);
        }
        let r = first_left(tray, places, h)?;
        Some(Lead { key: l.key, run: r })
    }
}
