// The program: standard input to its end, in whatever pieces the system hands out, and the answer lines to standard output in large writes. What
// happens in between is `take_lines` and `finish`: of a piece `serve` promises that each byte is fed once, in order, and that the output holds the
// end of what was said. No contract can say what is read or written: that a piece is what was read, and that what left the output was written.
#![tactic(auto)]

ghost use Rattle.std.specs.Prelude.{◌≡◌, ◌≤◌, [], true, length, IfSome};
ghost use Rattle.drawer_spec.specs.Filled.{filled};
ghost use Rattle.drawer_spec.specs.Turns.{Roomy};

use drawer_feed::begin_input;
use drawer_read::finish;
use drawer_serve::{serve, write_out};
use drawer_spec::Carried;
use std::io::Read;
use std::rt::Stdin;

// The end of the input: the last line, if it has no line feed, and all that is not yet written.
fn end_input(carried: &mut Carried)
    requires { Roomy carried.old.drawer }
    ensures { filled carried.new.drawer.output ≡ [] }
{
    finish(carried);
    let output = &mut carried.drawer.output;
    write_out(output);
}

// One read: how many bytes it brought, which are none at the end of the input, or none where it failed.
fn read_once(source: &mut Stdin, input: &mut [u8]) -> Option<usize>
    ensures { IfSome result (λ n. n ≤ length input.new) }
{
    source.read(input).ok()
}

// One read, and what it brings: whether to go on. A read that fails ends the program with what was answered.
fn read_some(source: &mut Stdin, input: &mut [u8], carried: &mut Carried) -> bool
    requires { Roomy carried.old.drawer }
    ensures { result ≡ true → Roomy carried.new.drawer }
{
    match read_once(source, input) {
        None => {
            write_out(&mut carried.drawer.output);
            false
        }
        Some(0) => {
            end_input(carried);
            false
        }
        Some(n) => serve(&input[..n], carried),
    }
}

// The program. All it needs stands on the stack, less than half a million bytes. A proved loop has to end, and nothing says that an input does: so the
// reads are counted, up to a number that no run uses up.
pub fn run(mut source: Stdin) {
    let mut input = io::large_buffer();
    let mut carried = begin_input();
    for _ in 0..u64::MAX {
        if !read_some(&mut source, &mut input, &mut carried) {
            return;
        }
    }
}
