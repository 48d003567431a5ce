// A piece of the input, whole, and the output written where it is full. Each byte of a piece is fed once, in order, and the output holds the end
// of what was said; that what left the output was written no contract can say.
#![tactic(auto)]

ghost use Rattle.std.specs.Prelude.{◌≡◌, true, []};
ghost use Rattle.drawer_spec.specs.Filled.{filled};
ghost use Rattle.drawer_spec.specs.Turns.{Roomy};
ghost use Rattle.drawer_serve.specs.Serves.{Room, Serves};

use drawer_read::take_lines;
use drawer_spec::{Carried, Drawer, Filled};

// The standard output.
pub const STDOUT: i32 = 1;

// Writes what an output holds, all of it: whether that went well.
pub fn write_out<const N: usize>(output: &mut Filled<N>) -> bool
    ensures { filled output.new ≡ [] }
{
    let fine = io::write_all(STDOUT, output.as_slice());
    output.clear();
    fine
}

// Writes the output where it has no room for one more answer line, and nothing else in the drawer changes: whether there is more to do.
fn make_room(drawer: &mut Drawer<262144>) -> bool
    ensures { Room drawer.old drawer.new }
{
    drawer.has_room() || write_out(&mut drawer.output)
}

// A piece of the input, whole: each byte once, in order. False where a write fails, which ends the program.
pub fn serve(piece: &[u8], carried: &mut Carried) -> bool
    requires { Roomy carried.old.drawer }
    ensures room { Roomy carried.new.drawer }
    ensures serves { result ≡ true → Serves piece.now carried.old carried.new }
{
    let mut at = 0;
    // Not a range: a turn moves on by what it took.
    while at < piece.len() {
        let taken = take_lines(&piece[at..], carried);
        at += taken;
        if !make_room(&mut carried.drawer) {
            return false;
        }
    }
    true
}
