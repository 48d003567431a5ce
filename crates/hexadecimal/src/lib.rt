// Lower-case hexadecimal in byte slices. No leaf has a branch that depends on a character, so that a stretch goes many characters at a time.
#![tactic(auto)]

ghost use Rattle.std.specs.Prelude.{◌≡◌, true, ◌+◌, ◌*◌, ◌/◌, ◌≤◌, ◌<◌, length};
ghost use Rattle.number.specs.Big.{put};
ghost use Rattle.hexadecimal.specs.Hex.{is_digit, digit_of, digit as digit_for, all_digits, bytes_in, hex_of};
ghost use Rattle.hexadecimal.specs.Hex.Code.{fault as fault_of};

// 0 for a digit, 1 for any other character.
#[tactic(auto, using(std::proofs::lemmas::Bool::Decides::nat_tests), unfolding(crate::specs::Hex::Code::fault, crate::specs::Hex::is_digit))]
fn fault(c: u8) -> u16
    ensures { result ≡ fault_of c }
{
    match c {
        b'0'..=b'9' | b'a'..=b'f' => 0,
        _ => 1,
    }
}

// Every character of a line is a digit. The others are counted, and the count fits 16 bits.
pub fn all_digits(line: &[u8]) -> bool
    requires { length line.now ≤ 32770 }
    ensures { result ≡ all_digits line.now }
{
    let mut faults: u16 = 0;
    for c in line {
        faults += fault(*c);
    }
    faults == 0
}

// The number of a digit: the low four bits of 0 to 9 are their number, and those of a to f lack 9.
fn digit_of(c: u8) -> u8
    requires { is_digit c ≡ true }
    ensures value { result ≡ digit_of c }
    ensures upper_bound { result < 16 }
{
    c % 16 + 9 * (c / 64)
}

// The digit of a number: from 10 on, 39 characters lie between.
fn digit(n: u8) -> u8
    requires { n < 16 }
    ensures { result ≡ digit_for n }
{
    48 + n + (n + 6) / 16 * 39
}

// The bytes that a line of digits spells, from the front of the frame on.
pub fn decode(line: &[u8], frame: &mut [u8])
    requires line_value { all_digits line.now ≡ true }
    requires line_in_bounds { length line.now / 2 ≤ length frame.old }
    ensures { frame.new ≡ put frame.old 0 (bytes_in line.now) }
{
    for i in 0..line.len() / 2 {
        frame[i] = digit_of(line[2 * i]) * 16 + digit_of(line[2 * i + 1]);
    }
}

// Bytes as digits, from a place of the output on.
pub fn encode(bytes: &[u8], out: &mut [u8], at: usize)
    requires { at + 2 * length bytes.now ≤ length out.old }
    ensures { out.new ≡ put out.old at (hex_of bytes.now) }
{
    for (i, b) in bytes.iter().enumerate() {
        out[at + 2 * i] = digit(*b / 16);
        out[at + 2 * i + 1] = digit(*b % 16);
    }
}
