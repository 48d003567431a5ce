// A cursor as 66 numbers: the segment's high and low half, the selector, and 63 places.
ghost use Rattle.std.specs.Prelude.{◌≡◌, length};
ghost use Rattle.theorems.specs.Cursors.{cursor_in, cursor_numbers};
ghost use Rattle.theorems.specs.Cursors.Laws.{PlacesIn, narrow_cursor, PutPlaces};

use crate::told::narrow;
use index::SegmentNo;
use tray::Place;
use walk::cursor::Cursor;

// The places among the numbers.
fn places_in(numbers: &[u16; 66]) -> [Place; 63]
    ensures { PlacesIn numbers.now result }
{
    let mut places = [Place(0); 63];
    for i in 0..63 {
        places[i] = Place(numbers[i + 3]);
    }
    places
}

// The cursor that 66 numbers stand for.
pub(crate) fn cursor_in(numbers: &[u16; 66]) -> Cursor
    ensures { result ≡ narrow_cursor (cursor_in numbers.now) }
{
    Cursor {
        segment: SegmentNo(u32::from(numbers[0]) * 65536 + u32::from(numbers[1])),
        selector: narrow(u64::from(numbers[2])),
        places: places_in(numbers),
    }
}

// The places put among the numbers.
fn put_places(places: &[Place; 63], numbers: &mut [u16; 66])
    ensures put { PutPlaces places.now numbers.new }
    ensures long { length places.now ≡ 63 }
{
    for i in 0..63 {
        let p = places[i];
        numbers[i + 3] = p.0;
    }
}

// The numbers of a cursor.
pub(crate) fn put_cursor(from: &Cursor, numbers: &mut [u16; 66])
    ensures { numbers.new ≡ cursor_numbers from.now }
{
    let g = from.segment.0;
    put_places(&from.places, numbers);
    numbers[0] = (g / 65536) as u16;
    numbers[1] = (g % 65536) as u16;
    numbers[2] = u16::from(from.selector);
}
