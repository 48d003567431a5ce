// The cursor of a walk: segment, selector, and how far each of 63 runs has been read.
ghost use Rattle.std.specs.Prelude.{◌≡◌, ◌+◌, ◌*◌, ◌≤◌, ◌<◌, length, get_or};
ghost use Rattle.refusal.specs.declared.Refusal.TheVariants.{Lost as LostAt};
ghost use Rattle.walk.specs.Code.{placed, numbers, spot_of};
ghost use Rattle.walk.specs.Code.Moves.{past_gap, past_record, end_at};
ghost use Rattle.walk.specs.Code.Load.{loaded_from};

use index::SegmentNo;
use number::BigEndian;
use refusal::Refusal;
use tray::{Place, RunNo};

#[derive(Clone, Copy)]
pub struct Cursor {
    pub segment: SegmentNo,
    pub selector: u8,
    pub places: [Place; 63],
}

// The moves of a cursor over a selector: each hands back the moved cursor.
impl Cursor {
    // The end of an index of n segments.
    pub fn end(n: u32) -> Cursor
        ensures { result ≡ end_at n }
    {
        Cursor {
            segment: SegmentNo(n),
            selector: 0,
            places: [Place(0); 63],
        }
    }

    // Past a placeholder.
    pub fn past_gap(mut self) -> Cursor
        requires { self.selector < 255 }
        ensures { spot_of result ≡ past_gap (spot_of self) }
    {
        self.selector += 1;
        self
    }

    // Past a record of a run, which raises the run's place. The places stand apart while one is raised: the moved cursor is then not copied as a whole.
    pub fn past_record(self, r: RunNo) -> Cursor
        requires { (self.selector < 255) × (r.0 < 63) × ((get_or self.places r.0 (placed 0)).0 < 65535) }
        ensures { spot_of result ≡ past_record (spot_of self) r.0 }
    {
        let i = usize::from(r.0);
        let mut places = self.places;
        places[i] = Place(places[i].0 + 1);
        Cursor {
            segment: self.segment,
            selector: self.selector + 1,
            places,
        }
    }
}

// The places of a cursor as numbers: a copy for where a cursor would be copied again for each function.
pub fn place_numbers(places: [Place; 63]) -> [u16; 63]
    ensures { result ≡ numbers places }
{
    let mut ps = [0u16; 63];
    for i in 0..63 {
        ps[i] = places[i].0;
    }
    ps
}

// A record where a walk stays, and the cursor that stands there.
#[derive(Clone, Copy)]
pub struct Sighting {
    pub run: RunNo,
    pub place: Place,
    pub cursor: Cursor,
}

// Where a walk is lost: a segment and a selector.
#[derive(Clone, Copy, PartialEq, Eq)]
pub struct Lost {
    pub segment: u32,
    pub selector: u32,
}

// Refusal 10.
impl From<Lost> for Refusal {
    ghost from_gives = { λ l r. r ≡ LostAt l.segment l.selector };

    fn from(l: Lost) -> Refusal {
        Refusal::Lost(l.segment, l.selector)
    }
}

// The places on entering the segment that starts at a byte: its offsets, and 0 for runs that the tray has not. They are lent, so that none are copied.
pub fn load(x: &[u8], at: usize, h: u8, places: &mut [Place; 63])
    requires { (at + 8 + 2 * h ≤ length x.now) × (h ≤ 63) }
    ensures { numbers places.new ≡ loaded_from h x.now at }
{
    let runs = usize::from(h);
    for r in 0..runs {
        places[r] = Place(u16::read(x, at + 8 + 2 * r));
    }
    for i in runs..63 {
        places[i] = Place(0);
    }
}
