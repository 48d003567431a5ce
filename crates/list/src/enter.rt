// Where a listing enters a segment.
ghost use Rattle.std.specs.Prelude.{◌≡◌, ◌≤◌, ◌<◌};
ghost use Rattle.list.specs.Steps.{spot_at};
ghost use Rattle.list.specs.Listing.{entry_of};

use crate::Listing;
use index::SegmentNo;
use tray::Place;
use walk::cursor::load;

impl<'a> Listing<'a> {
    // The selector and the places at which it enters a segment: its cursor's in the cursor's own, and the first selector with the segment's offsets
    // in a later one. The places are lent, so that none are copied.
    pub fn enter(&self, g: SegmentNo, places: &mut [Place; 63]) -> u8
        requires { g.0 < self.now.indexed.now.index.segments }
        ensures low { result ≤ self.now.indexed.now.index.size }
        ensures spot { spot_at g.0 result places.new ≡ entry_of self.now g.0 }
    {
        if g.0 == self.from.segment.0 {
            *places = self.from.places;
            return self.from.selector;
        }
        let index = &self.indexed.index;
        load(index.bytes, index.segment_at(g), index.runs, places);
        0
    }
}
