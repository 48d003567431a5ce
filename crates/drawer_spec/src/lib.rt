// What the program `drawer` does with a line and with an input (docs/DRAWER.md, "The program `drawer`"): the definitions and laws are in specs/,
// the laws of an input's end in proofs/. The code here is that of the buffers that all of the program works in.
#![tactic(auto)]

pub mod buffers;

ghost use Rattle.std.specs.Prelude.{◌≡◌, ◌≤◌, length};

// A buffer, of which the first bytes are filled.
#[derive(Clone, Copy)]
pub struct Filled<const N: usize> {
    pub bytes: [u8; N],
    pub used: usize,
    ghost whole: { length bytes ≡ N },
    ghost fits: { used ≤ N },
}

// What a line reads and changes: the kept tray and index, the room of a sheet, the answer lines that are not yet written, and the number of the
// line that is being read. The output may have any size: for a line its room for one more answer line is all that counts.
#[derive(Clone, Copy)]
pub struct Drawer<const N: usize> {
    pub tray: Filled<16384>,
    pub index: Filled<32768>,
    pub room: [u8; 32768],
    pub output: Filled<N>,
    pub number: u32,
}

// What is carried from piece to piece: the drawer, the characters of the line that is being read, and the room of the frame that it spells.
#[derive(Clone, Copy)]
pub struct Carried {
    pub drawer: Drawer<262144>,
    pub line: Filled<32771>,
    pub frame: [u8; 16385],
}
