// Number and figure of an answer, and the numbers that a caller hands over made narrow.
ghost use Rattle.std.specs.Prelude.{◌≡◌, ◌<◌};
ghost use Rattle.refusal.specs.Table.{told, verdict_of};
ghost use Rattle.theorems.specs.Told.{count_told};
ghost use Rattle.theorems.specs.Wide.{narrowed, owned};

use refusal::{Refusal, Verdict};

// A number as a byte. One above 255 is as good as 255: both are out of every bound.
pub(crate) fn narrow(n: u64) -> u8
    ensures { result ≡ narrowed n }
{
    u8::try_from(n).unwrap_or(255)
}

// The number of a refusal, and its figure.
pub(crate) fn refuse(r: Refusal, figure: &mut u64) -> u32
    ensures { told result figure.new ≡ verdict_of r }
{
    let v = Verdict::from(r);
    *figure = v.figure;
    u32::from(v.number)
}

// The number of an answer that is a count: 0 and the count, or its refusal's.
pub(crate) fn count(a: Result<u64, Refusal>, figure: &mut u64) -> u32
    ensures { told result figure.new ≡ count_told a }
{
    match a {
        Ok(n) => {
            *figure = n;
            0
        }
        Err(r) => refuse(r, figure),
    }
}

// The same, but at one number the figure is the caller's own: what was asked for, however wide.
pub(crate) fn count_own(a: Result<u64, Refusal>, at: u8, own: u64, figure: &mut u64) -> u32
    requires { 0 < at }
    ensures { told result figure.new ≡ owned at own (count_told a) }
{
    let n = count(a, figure);
    if n == u32::from(at) {
        *figure = own;
    }
    n
}
