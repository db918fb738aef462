//! What is played on threads.

ghost use Rattle.std.specs.Prelude.{◌<◌, ◌≤◌, ◌^◌, length};

use jc_types::{Script, Shape};

/// A script, the shape of the cluster that plays it, and on how many threads, within the bounds of what can be played.
#[derive(Clone, Copy)]
pub struct Play<'a> {
    pub script: &'a Script,
    pub shape: &'a Shape,
    pub threads: u32,
    ghost some: { 1 ≤ threads },
    ghost few: { threads ≤ 16 },
    ghost fits: { length script.now.commands < 2 ^ 32 },
    ghost bound: { shape.now.events ≤ 200000 },
}
