// Big-endian numbers in byte slices: the leaves that everything above reads and writes bytes with.
#![tactic(auto)]

ghost use Rattle.std.specs.Prelude.{◌≡◌, ℕ, ◌+◌, ◌≤◌, length};
ghost use Rattle.number.specs.Big.{be, bytes_of, put};

// A number that stands in bytes, the highest first. It is read where it stands: `from_be_bytes` would take an array made of the slice first.
pub trait BigEndian {
    // How many bytes it has, and its number.
    ghost width: { ℕ };

    ghost number: { Self → ℕ };

    // The number that the bytes from a place on spell.
    fn read(s: &[u8], at: usize) -> Self
        requires { at + width ≤ length s.now }
        ensures { number result ≡ be width s.now at };

    // Writes the bytes of a number from a place on, and nothing else.
    fn write(self, out: &mut [u8], at: usize)
        requires { at + width ≤ length out.old }
        ensures { out.new ≡ put out.old at (bytes_of width (number self)) };
}

impl BigEndian for u16 {
    ghost width = { 2 };

    ghost number = { λ n. n };

    fn read(s: &[u8], at: usize) -> u16 {
        u16::from(s[at]) * 256 + u16::from(s[at + 1])
    }

    fn write(self, out: &mut [u8], at: usize) {
        out[at] = (self / 256) as u8;
        out[at + 1] = (self % 256) as u8;
    }
}

impl BigEndian for u32 {
    ghost width = { 4 };

    ghost number = { λ n. n };

    // Byte by byte: made of two of 16 bits it would keep a number of 64 from being one load.
    fn read(s: &[u8], at: usize) -> u32 {
        ((u32::from(s[at]) * 256 + u32::from(s[at + 1])) * 256 + u32::from(s[at + 2])) * 256
            + u32::from(s[at + 3])
    }

    fn write(self, out: &mut [u8], at: usize) {
        out[at] = (self / 0x1000000) as u8;
        out[at + 1] = (self / 0x10000 % 256) as u8;
        out[at + 2] = (self / 0x100 % 256) as u8;
        out[at + 3] = (self % 256) as u8;
    }
}

// A key is such a number, as the order needs it. Inlined, it compiles to one load and a byte swap, but not where two branches of a caller each
// end in such a read: the compiler joins these and reads byte by byte.
impl BigEndian for u64 {
    ghost width = { 8 };

    ghost number = { λ n. n };

    fn read(s: &[u8], at: usize) -> u64 {
        u64::from(u32::read(s, at)) * 4294967296 + u64::from(u32::read(s, at + 4))
    }

    fn write(self, out: &mut [u8], at: usize) {
        ((self / 4294967296) as u32).write(out, at);
        ((self % 4294967296) as u32).write(out, at + 4);
    }
}

// Copies bytes to a place of the output, and writes nothing else. Byte by byte, which the compiler makes one copy: from slice to slice it would be one that
// expects the two to overlap.
pub fn copy(part: &[u8], out: &mut [u8], at: usize)
    requires { at + length part.now ≤ length out.old }
    ensures { out.new ≡ put out.old at part.now }
{
    for (i, byte) in part.iter().enumerate() {
        out[at + i] = *byte;
    }
}
