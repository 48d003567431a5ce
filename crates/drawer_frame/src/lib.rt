// One function a kind of frame: what it does with the kept tray and index, and its answer line.
#![tactic(auto)]

pub mod says;

ghost use Rattle.std.specs.Prelude.{◌≤◌, length};
ghost use Rattle.tray.specs.Check.{check_tray_answer};
ghost use Rattle.build_spec.specs.Build.{build_answer};
ghost use Rattle.answers.specs.Get.{get_answer};
ghost use Rattle.drawer_spec.specs.Filled.{filled};
ghost use Rattle.drawer_spec.specs.Line.{room_size, tray_size, after_tray, after_build, after_get};
ghost use Rattle.drawer_spec.specs.Turns.{Roomy, Turned, saying, listed_says};

use crate::says::{refuse, say};
use build::build;
use drawer_spec::Drawer;
use seek::get::get;
use sheet::sheet;
use tray_check::check_tray;

// 01: the tray is kept where it is sound, and the index is emptied.
pub fn keep_tray<const N: usize>(bytes: &[u8], drawer: &mut Drawer<N>)
    requires room { Roomy drawer.old }
    requires bytes_bound { length bytes.now ≤ tray_size }
    ensures { Turned (after_tray bytes.now (check_tray_answer bytes.now)) drawer.old drawer.new }
{
    drawer.tray.clear();
    drawer.index.clear();
    match check_tray(bytes) {
        Ok(n) => {
            drawer.tray.push_slice(bytes);
            say(0x81, 0, n, &[], &mut drawer.output);
        }
        Err(r) => refuse(0x81, r, &mut drawer.output),
    }
}

// 02: the index is built where it is kept.
pub fn keep_index<const N: usize>(d: u8, drawer: &mut Drawer<N>)
    requires { Roomy drawer.old }
    ensures { Turned (after_build (filled drawer.old.tray) d (build_answer (filled drawer.old.tray) d room_size)) drawer.old drawer.new }
{
    match build(drawer.tray.as_slice(), d, &mut drawer.index.bytes) {
        Ok(n) => {
            drawer.index.used = n as usize;
            say(0x82, 0, n, drawer.index.as_slice(), &mut drawer.output);
        }
        Err(r) => {
            drawer.index.clear();
            refuse(0x82, r, &mut drawer.output);
        }
    }
}

// 03: the value of a key.
pub fn look_up<const N: usize>(key: &[u8; 8], drawer: &mut Drawer<N>)
    requires { Roomy drawer.old }
    ensures { Turned (saying drawer.old (after_get (get_answer (filled drawer.old.tray) (filled drawer.old.index) key.now))) drawer.old drawer.new }
{
    match get(drawer.tray.as_slice(), drawer.index.as_slice(), key) {
        Ok(Some(value)) => say(0x83, 0, 1, &value, &mut drawer.output),
        Ok(None) => say(0x83, 0, 0, &[], &mut drawer.output),
        Err(r) => refuse(0x83, r, &mut drawer.output),
    }
}

// 04: the records of a prefix.
pub fn list<const N: usize>(prefix: &[u8], drawer: &mut Drawer<N>)
    requires { Roomy drawer.old }
    ensures { Turned (saying drawer.old (listed_says (filled drawer.old.tray) (filled drawer.old.index) prefix.now)) drawer.old drawer.new }
{
    match sheet(
        drawer.tray.as_slice(),
        drawer.index.as_slice(),
        prefix,
        &mut drawer.room,
    ) {
        Ok(n) => {
            let end = 24 * (n as usize);
            say(0x84, 0, n, &drawer.room[..end], &mut drawer.output);
        }
        Err(r) => refuse(0x84, r, &mut drawer.output),
    }
}
