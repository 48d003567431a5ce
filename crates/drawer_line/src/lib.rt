// The line language of the program `drawer` (docs/DRAWER.md): one line in, the kept tray and index and the answer line out. A line is any bytes
// without a line feed; what it does and says is `turn`, for every line.
#![tactic(auto)]

ghost use Rattle.std.specs.Prelude.{◌≡◌, ◌≤◌, length};
ghost use Rattle.drawer_spec.specs.Line.{bad_answer, formed as formed_line};
ghost use Rattle.drawer_spec.specs.Turns.{Roomy, Turned, saying, heard_in, turn_in};

use drawer_frame::says::say;
use drawer_frame::{keep_index, keep_tray, list, look_up};
use drawer_spec::Drawer;
use hexadecimal::{all_digits, decode};

// A line is 1 to 32,770 digits, an even number of them.
#[tactic(auto, using(std::proofs::lemmas::Bool::Decides::nat_tests), unfolding(drawer_spec::specs::Line::formed))]
fn formed(line: &[u8]) -> bool
    ensures { result ≡ formed_line line.now }
{
    let n = line.len();
    1 <= n && n % 2 == 0 && n <= 32770 && all_digits(line)
}

// A bad line changes nothing. Its answer is ff0d and the line's number.
fn put_bad<const N: usize>(drawer: &mut Drawer<N>)
    requires { Roomy drawer.old }
    ensures { Turned (saying drawer.old (bad_answer drawer.old.number)) drawer.old drawer.new }
{
    say(0xff, 13, u64::from(drawer.number), &[], &mut drawer.output);
}

// A frame by its kind. One of unknown kind, or of wrong length for 02 or 03, is as bad as a line that spells none. Slice patterns are no plainer here:
// they test each length anew, and a proof has to go through all of these tests.
fn answer_frame<const N: usize>(frame: &[u8], drawer: &mut Drawer<N>)
    requires room { Roomy drawer.old }
    requires frame_nonzero { 1 ≤ length frame.now }
    requires frame_bound { length frame.now ≤ 16385 }
    ensures { Turned (heard_in drawer.old frame.now) drawer.old drawer.new }
{
    let rest = &frame[1..];
    match frame[0] {
        1 => keep_tray(rest, drawer),
        2 if rest.len() == 1 => keep_index(rest[0], drawer),
        3 => match <&[u8; 8]>::try_from(rest) {
            Ok(key) => look_up(key, drawer),
            Err(_) => put_bad(drawer),
        },
        4 => list(rest, drawer),
        _ => put_bad(drawer),
    }
}

// What a line does and says. `frame` is for the work alone.
pub fn answer_line<const N: usize>(line: &[u8], frame: &mut [u8; 16385], drawer: &mut Drawer<N>)
    requires { Roomy drawer.old }
    ensures { Turned (turn_in drawer.old line.now) drawer.old drawer.new }
{
    if formed(line) {
        decode(line, frame);
        answer_frame(&frame[..line.len() / 2], drawer);
    } else {
        put_bad(drawer);
    }
}
