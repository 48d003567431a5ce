// The lines of an input that comes in pieces, and their answers: what a piece adds to what is carried. It neither reads nor writes; what it does
// with any pieces is `feed`, as if all bytes came at once.
#![tactic(auto)]

ghost use Rattle.drawer_spec.specs.Turns.{Roomy};
ghost use Rattle.drawer_spec.specs.Feed.Code.{Answers, Ends, Takes, Finishes};

use drawer_feed::{gather_line, line_end};
use drawer_line::answer_line;
use drawer_spec::{Carried, Drawer};

// The turn of a line that has ended, and the number of the next one.
fn answer<const N: usize>(line: &[u8], frame: &mut [u8; 16385], drawer: &mut Drawer<N>)
    requires { Roomy drawer.old }
    ensures { Answers line.now drawer.old drawer.new }
{
    answer_line(line, frame, drawer);
    drawer.number = drawer.number.wrapping_add(1);
}

// A line feed after these characters. A line that lies whole in the piece is not copied.
fn end_line(part: &[u8], carried: &mut Carried)
    requires { Roomy carried.old.drawer }
    ensures { Ends part.now carried.old carried.new }
{
    if carried.line.used == 0 {
        answer(part, &mut carried.frame, &mut carried.drawer);
    } else {
        gather_line(part, &mut carried.line);
        answer(
            carried.line.as_slice(),
            &mut carried.frame,
            &mut carried.drawer,
        );
        carried.line.clear();
    }
}

// Takes a piece, line by line, until it is used up or the output has no room for one more answer line: how many of its bytes were taken.
pub fn take_lines(piece: &[u8], carried: &mut Carried) -> usize
    requires { Roomy carried.old.drawer }
    ensures { Takes piece.now carried.old result carried.new }
{
    let mut at = 0;
    // Not a range: a turn moves on by a line.
    while carried.drawer.has_room() {
        let rest = &piece[at..];
        let Some(end) = line_end(rest) else {
            gather_line(rest, &mut carried.line);
            return piece.len();
        };
        end_line(&rest[..end], carried);
        at += end + 1;
    }
    at
}

// The end of the input: characters that are gathered are a line too.
pub fn finish(carried: &mut Carried)
    requires { Roomy carried.old.drawer }
    ensures { Finishes carried.old carried.new.drawer }
{
    if carried.line.used != 0 {
        answer(
            carried.line.as_slice(),
            &mut carried.frame,
            &mut carried.drawer,
        );
    }
}
