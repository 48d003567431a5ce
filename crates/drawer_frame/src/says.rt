// Answer lines, put behind what the output holds: the head of 6 bytes, what comes with it, as digits, and a line feed. The output may have any size.
ghost use Rattle.std.specs.Prelude.{◌≡◌, ◌∷◌, ◌++◌, ◌+◌, ◌*◌, ◌≤◌, length};
ghost use Rattle.number.specs.Big.{bytes_of};
ghost use Rattle.refusal.specs.Table.{verdict_of};
ghost use Rattle.hexadecimal.specs.Hex.{hex_of};
ghost use Rattle.drawer_spec.specs.Filled.{filled};
ghost use Rattle.drawer_spec.specs.Line.{room_size, line_size, answer_line};

use drawer_spec::Filled;
use hexadecimal::encode;
use number::BigEndian;
use refusal::{Refusal, Verdict};

// Bytes as digits.
fn put_digits<const N: usize>(bytes: &[u8], out: &mut Filled<N>)
    requires { out.old.used + 2 * length bytes.now ≤ N }
    ensures { filled out.new ≡ filled out.old ++ hex_of bytes.now }
{
    encode(bytes, &mut out.bytes, out.used);
    out.used += 2 * bytes.len();
}

// The head: a code, refusal and figure, 12 digits. A figure has its 4 lowest bytes there.
fn put_answer_head<const N: usize>(code: u8, number: u8, figure: u64, out: &mut Filled<N>)
    requires { out.old.used + 12 ≤ N }
    ensures { filled out.new ≡ filled out.old ++ hex_of (code ∷ number ∷ bytes_of 4 figure) }
{
    let mut head = [code, number, 0, 0, 0, 0];
    ((figure % 0x100000000) as u32).write(&mut head, 2);
    put_digits(&head, out);
}

// An answer: its head, and what comes with it. The code of a kind is the kind plus 0x80.
pub fn say<const N: usize>(code: u8, number: u8, figure: u64, more: &[u8], out: &mut Filled<N>)
    requires room { out.old.used + line_size ≤ N }
    requires more_bound { length more.now ≤ room_size }
    ensures { filled out.new ≡ filled out.old ++ answer_line (code ∷ number ∷ (bytes_of 4 figure ++ more.now)) }
{
    put_answer_head(code, number, figure, out);
    put_digits(more, out);
    out.push(b'\n');
}

// A refusal's answer ends with its figure.
pub fn refuse<const N: usize>(code: u8, r: Refusal, out: &mut Filled<N>)
    requires { out.old.used + line_size ≤ N }
    ensures { filled out.new ≡ filled out.old ++ answer_line (code ∷ (verdict_of r).number ∷ bytes_of 4 (verdict_of r).figure) }
{
    let v = Verdict::from(r);
    say(code, v.number, v.figure, &[], out);
}
