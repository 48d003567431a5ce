// Why a call refuses: the table of docs/RULES.md, "Refusals by number", as one enum, so that each refusal is made in one way.
#![tactic(auto)]

ghost use Rattle.std.specs.Prelude.{◌≡◌};
ghost use Rattle.refusal.specs.Table.{lost_figure, verdict_of};

// A line of the table each, in its order. What a variant holds is what its figure is made of.
#[derive(Clone, Copy, PartialEq, Eq)]
pub enum Refusal {
    // The tray breaks the header, count or length rules.
    TrayFrame,
    // This record's key is not above the one before it in its run.
    KeyOrder(u64),
    // This record's kind is above 1, or it is gone and has a value.
    RecordKind(u64),
    // The index breaks the frame.
    IndexFrame,
    // The index's frame fits, and this segment is the first wrong one, or the segment count where records are left over.
    Segment(u64),
    // This segment size is outside H to 128.
    SegmentSize(u64),
    // The output is too short: this many bytes are needed.
    Room(u64),
    // A fold's last run, or a prefix's length, out of bounds.
    Bounds(u64),
    // The last byte of a prefix of this length is 255.
    PrefixEnd(u64),
    // The walk is lost at this segment and selector.
    Lost(u32, u32),
    // The cursor, which has this segment, doesn't belong.
    Cursor(u64),
    // The folded run would have this many records.
    RunLength(u64),
}

// A refusal as a caller gets it: its number in the table and its figure.
#[derive(Clone, Copy, PartialEq, Eq)]
pub struct Verdict {
    pub number: u8,
    pub figure: u64,
}

// Where a walk is lost, as one number: at most 2^39.
fn lost_figure(segment: u32, selector: u32) -> u64
    ensures { result ≡ lost_figure segment selector }
{
    u64::from(segment) * 128 + u64::from(selector)
}

impl Verdict {
    // A number and its figure.
    fn new(number: u8, figure: u64) -> Verdict
        ensures { result ≡ record { number = number; figure = figure } }
    {
        Verdict { number, figure }
    }
}

// The number and figure of a refusal.
impl From<Refusal> for Verdict {
    ghost from_gives = { λ r v. v ≡ verdict_of r };

    fn from(r: Refusal) -> Verdict {
        match r {
            Refusal::TrayFrame => Verdict::new(1, 0),
            Refusal::KeyOrder(n) => Verdict::new(2, n),
            Refusal::RecordKind(n) => Verdict::new(3, n),
            Refusal::IndexFrame => Verdict::new(4, 0),
            Refusal::Segment(g) => Verdict::new(5, g),
            Refusal::SegmentSize(d) => Verdict::new(6, d),
            Refusal::Room(n) => Verdict::new(7, n),
            Refusal::Bounds(n) => Verdict::new(8, n),
            Refusal::PrefixEnd(n) => Verdict::new(9, n),
            Refusal::Lost(g, s) => Verdict::new(10, lost_figure(g, s)),
            Refusal::Cursor(g) => Verdict::new(11, g),
            Refusal::RunLength(n) => Verdict::new(12, n),
        }
    }
}
