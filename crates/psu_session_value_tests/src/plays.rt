//! Scripts of what clients send, and of what is then to be sent to them.
use crate::mem_device::Power;
use crate::player::Player;
use psu_call_steps::{image, powered_on};
use psu_exec::Session;
use psu_tables::is_step;
use std::alloc::Global;
use std::process::Abort;

// How many bytes are received at once: all, seven, one.
const SIZES: [usize; 3] = [usize::MAX, 7, 1];

// The number of pages of the devices' images.
const PAGES: u16 = 136;

// Plays a script, which begins with its title, on a device, with this many bytes at once.
fn play_on(rt: &impl Abort, exec: &mut Power, alloc: Global, size: usize, script: &str) {
    let (title, steps) = script.split_once("\n").unwrap_or((script, ""));
    let first = Session::new(1).expect(rt, "a number");
    let mut player = Player::new(alloc, exec, first, size);
    for line in steps.lines() {
        let is_so = !is_step(line) || player.line(line);
        assert!(rt; is_so, "{title}: {line} ({size})");
    }
}

// Plays a script on a new device, with this many bytes at once.
fn play_anew(rt: &impl Abort, alloc: Global, size: usize, script: &str) {
    let disk = image(alloc, PAGES).expect(rt, "an image");
    let mut exec = powered_on(alloc, disk).expect(rt, "a device");
    play_on(rt, &mut exec, alloc, size, script);
}

// Plays scripts on new devices, with each of these many bytes at once.
fn play_sizes(rt: &impl Abort, alloc: Global, scripts: &str, sizes: &[usize]) {
    let mut parts = scripts.split("\n== ");
    let _ = parts.next();
    for script in parts {
        for &size in sizes {
            play_anew(rt, alloc, size, script);
        }
    }
}

/// Plays scripts, each of which begins with a line `== ` and its title, on new devices.
pub(crate) fn play(rt: &impl Abort, alloc: Global, scripts: &str) {
    play_sizes(rt, alloc, scripts, &SIZES);
}

/// Plays scripts as `play` does, but each step's bytes are received at once, since they are many.
pub(crate) fn play_at_once(rt: &impl Abort, alloc: Global, scripts: &str) {
    play_sizes(rt, alloc, scripts, &[usize::MAX]);
}
