// The lines of an input that comes in pieces: what is carried from piece to piece, where a line ends, and its characters gathered.
#![tactic(auto)]

ghost use Rattle.std.specs.Prelude.{◌≡◌, ◌≤◌, ◌++◌, length, take};
ghost use Rattle.std.specs.List.{position};
ghost use Rattle.drawer_spec.specs.Filled.{filled};
ghost use Rattle.drawer_spec.specs.Turns.{Roomy};
ghost use Rattle.drawer_spec.specs.Feed.{begun};
ghost use Rattle.drawer_spec.specs.Feed.Code.{gather_size, line_feed, Stands};

use drawer_spec::{Carried, Drawer, Filled};

// What is carried before the first byte of an input.
pub fn begin_input() -> Carried
    ensures start { Stands result begun }
    ensures room { Roomy result.drawer }
{
    Carried {
        drawer: Drawer {
            tray: Filled::new(),
            index: Filled::new(),
            room: [0; 32768],
            output: Filled::new(),
            number: 1,
        },
        line: Filled::new(),
        frame: [0; 16385],
    }
}

// Where a line ends: at its line feed, or not in the piece.
pub fn line_end(piece: &[u8]) -> Option<usize>
    ensures { result ≡ position line_feed piece.now }
{
    piece.iter().position(|c| *c == b'\n')
}

// Characters put after those that are gathered. From the first one on that makes the line over-long they are dropped.
pub fn gather_line(part: &[u8], line: &mut Filled<32771>)
    ensures { filled line.new ≡ take gather_size (filled line.old ++ part.now) }
{
    let left = part.len().min(32771 - line.used);
    line.push_slice(&part[..left]);
}
