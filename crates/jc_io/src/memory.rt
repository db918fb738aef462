// A source and a sink in memory, whose faults are planned.
ghost use Rattle.std.specs.Prelude.{◌≡◌, ◌≤◌, ◌<◌, min, take, length, vec_len, vec_capacity};

use super::plan::Plan;
use super::{Bytes, Failed, Sink, Source, Want};
use std::alloc::Global;

/// A source that gives bytes which it holds, and fails at calls that are planned.
///
/// Its calls of `read_some` count from 1; all from call 2^64 - 1 on have that number.
#[derive(Drop)]
pub struct MemSource {
    bytes: Bytes,
    at: usize,
    most: usize,
    plan: Plan,
    ghost within: { at ≤ vec_len bytes },
    ghost moves: { 0 < most },
}

impl MemSource {
    ghost use Rattle.std.specs.Prelude.{◌≡◌, ◌≤◌, ◌-◌, ◌^◌};
    ghost use Rattle.jc_io.specs.Memory.{bytes_left, source_most, source_plan};
    ghost use Rattle.jc_io.specs.Plan.{new_plan};

    /// A source of `bytes`, whose calls with a number in `fails` fail. It takes no memory.
    pub fn new(bytes: Bytes, fails: Vec<u64>) -> MemSource
        ensures left { bytes_left result ≡ bytes.items }
        ensures plan { source_plan result ≡ new_plan fails }
        // More than any buffer has room for.
        ensures pieces { source_most result ≡ 2 ^ 64 - 1 }
    {
        MemSource {
            bytes,
            at: 0,
            most: usize::MAX,
            plan: Plan::new(fails),
        }
    }

    /// This source, of which one call gives at most `most` bytes from now on. It takes no memory.
    pub fn in_pieces(self, most: u32) -> MemSource
        requires { 1 ≤ most }
        ensures left { bytes_left result ≡ bytes_left self }
        ensures plan { source_plan result ≡ source_plan self }
        ensures pieces { source_most result ≡ most }
    {
        MemSource {
            bytes: self.bytes,
            at: self.at,
            most: most as usize,
            plan: self.plan,
        }
    }
}

impl Source for MemSource {
    ghost use Rattle.std.specs.Prelude.{◌≡◌, ◌≤◌, ℕ, List, Option, Some, min, length, is_err, IfOk};
    ghost use Rattle.std.specs.Io.{ReadsAtMost};
    ghost use Rattle.std.specs.Io.KnownBytes.{ReadConsumes};
    ghost use Rattle.jc_io.specs.Faults.{HasCause, raised_count};
    ghost use Rattle.jc_io.specs.Memory.{bytes_left, source_most, source_plan};
    ghost use Rattle.jc_io.specs.Plan.{after_call, fails_next};

    ghost left = { λ s. Some (bytes_left s) };

    ghost faults = { λ s. (source_plan s).faults };

    ghost calls = { λ s. (source_plan s).calls };

    fn read_some(&mut self, buf: &mut [u8]) -> Result<usize, Failed>
        ensures reads_at_most { ReadsAtMost result buf.new }
        ensures bytes { ReadConsumes
            (Some (bytes_left self.old)) (Some (bytes_left self.new)) result buf.new }
        ensures cause { HasCause
            (source_plan self.old).faults (source_plan self.new).faults result }
        ensures never_falls { (source_plan self.old).faults ≤ (source_plan self.new).faults }
        ensures call { (source_plan self.new).calls ≡ raised_count (source_plan self.old).calls }
        // A call gives as much as a piece may have and the buffer has room for, and fails exactly
        // where that is planned.
        ensures count { IfOk result (λ n. n
            ≡ min (source_most self.old) (min (length buf.old) (length (bytes_left self.old)))) }
        ensures same_pieces { source_most self.new ≡ source_most self.old }
        ensures refused { is_err result ≡ fails_next (source_plan self.old) }
        ensures counted { source_plan self.new ≡ after_call (source_plan self.old) (is_err result) }
    {
        self.plan.call(true)?;
        let count = copy_front(&self.bytes[self.at..], buf, self.most);
        self.at += count;
        Ok(count)
    }
}

/// A sink that holds bytes up to a given room, and fails at calls that are planned. A write where
/// no room is left fails too.
///
/// Its calls of `write_some` and `finish` count together from 1; all from call 2^64 - 1 on have
/// that number.
#[derive(Drop)]
pub struct MemSink {
    held: Bytes,
    room: usize,
    most: usize,
    plan: Plan,
    finished: u64,
    ghost within: { vec_len held ≤ room },
    ghost reserved: { room ≤ vec_capacity held },
    ghost moves: { 0 < most },
}

impl MemSink {
    ghost use Rattle.std.specs.Prelude.{◌≡◌, ◌≤◌, ◌-◌, ◌^◌, [], IfOk};
    ghost use Rattle.jc_io.specs.Memory.{bytes_held, sink_finished, sink_most, sink_plan, sink_room};
    ghost use Rattle.jc_io.specs.Plan.{new_plan};

    /// A sink with room for `room` bytes, whose calls with a number in `fails` fail.
    pub fn new(alloc: Global, room: u64, fails: Vec<u64>) -> Result<MemSink, Want>
        ensures empty { IfOk result (λ s. bytes_held s ≡ []) }
        ensures room { IfOk result (λ s. sink_room s ≡ room) }
        ensures plan { IfOk result (λ s. sink_plan s ≡ new_plan fails) }
        // More than any piece has.
        ensures pieces { IfOk result (λ s. sink_most s ≡ 2 ^ 64 - 1) }
        ensures not_finished { IfOk result (λ s. sink_finished s ≡ 0) }
    {
        let room = room as usize;
        Ok(MemSink {
            held: Vec::with_capacity(alloc, room)?,
            room,
            most: usize::MAX,
            plan: Plan::new(fails),
            finished: 0,
        })
    }

    /// This sink, of which one call takes at most `most` bytes from now on. It takes no memory.
    pub fn in_pieces(self, most: u32) -> MemSink
        requires { 1 ≤ most }
        ensures held { bytes_held result ≡ bytes_held self }
        ensures room { sink_room result ≡ sink_room self }
        ensures plan { sink_plan result ≡ sink_plan self }
        ensures pieces { sink_most result ≡ most }
        ensures finished { sink_finished result ≡ sink_finished self }
    {
        MemSink {
            held: self.held,
            room: self.room,
            most: most as usize,
            plan: self.plan,
            finished: self.finished,
        }
    }

    /// The bytes that were written.
    pub fn held(&self) -> &[u8]
        ensures { result.now ≡ bytes_held self.now }
    {
        &self.held
    }
}

impl Sink for MemSink {
    ghost use Rattle.std.specs.Prelude.{◌≡◌, ◌≤◌, ◌<◌, ◌||◌, ◌==◌, ℕ, List, Option, Some, min, length, is_err, IfOk, OnErr, OnOk};
    ghost use Rattle.std.specs.Io.{WritesAtMost};
    ghost use Rattle.std.specs.Io.KnownBytes.{Keeps, WriteAppends};
    ghost use Rattle.jc_io.specs.Faults.{HasCause, raised_count};
    ghost use Rattle.jc_io.specs.Memory.{bytes_held, room_left, sink_finished, sink_most, sink_plan, sink_room};
    ghost use Rattle.jc_io.specs.Plan.{after_call, fails_next};

    ghost held = { λ s. Some (bytes_held s) };

    ghost faults = { λ s. (sink_plan s).faults };

    ghost finished = { λ s. sink_finished s };

    fn write_some(&mut self, piece: &[u8]) -> Result<usize, Failed>
        ensures writes_at_most { WritesAtMost result piece.now }
        ensures takes_some { 0 < length piece.now → IfOk result (λ n. 0 < n) }
        ensures bytes { WriteAppends
            (Some (bytes_held self.old)) (Some (bytes_held self.new)) result piece.now }
        ensures cause { HasCause (sink_plan self.old).faults (sink_plan self.new).faults result }
        ensures never_falls { (sink_plan self.old).faults ≤ (sink_plan self.new).faults }
        ensures not_finished { sink_finished self.new ≡ sink_finished self.old }
        // A call appends as much as a piece may have and there is room for, and fails exactly where
        // that is planned or no room is left.
        ensures count { IfOk result (λ n. n
            ≡ min (sink_most self.old) (min (length piece.now) (room_left self.old))) }
        ensures same_room { sink_room self.new ≡ sink_room self.old }
        ensures same_pieces { sink_most self.new ≡ sink_most self.old }
        ensures refused { is_err result
            ≡ (fails_next (sink_plan self.old) || (room_left self.old == 0)) }
        ensures counted { sink_plan self.new ≡ after_call (sink_plan self.old) (is_err result) }
    {
        let room = self.room - self.held.len();
        self.plan.call(room > 0)?;
        let count = self.most.min(piece.len().min(room));
        match self.held.extend_from_slice(&piece[..count]) {
            Ok(()) => Ok(count),
            Err(_) => unreachable!(),
        }
    }

    fn finish(&mut self) -> Result<(), Failed>
        ensures bytes { Keeps (Some (bytes_held self.old)) (Some (bytes_held self.new)) }
        ensures cause { HasCause (sink_plan self.old).faults (sink_plan self.new).faults result }
        ensures never_falls { (sink_plan self.old).faults ≤ (sink_plan self.new).faults }
        ensures finished { OnOk result
            (sink_finished self.new ≡ raised_count (sink_finished self.old)) }
        ensures not_finished { OnErr result (sink_finished self.new ≡ sink_finished self.old) }
        // A call fails exactly where that is planned.
        ensures same_room { sink_room self.new ≡ sink_room self.old }
        ensures same_pieces { sink_most self.new ≡ sink_most self.old }
        ensures refused { is_err result ≡ fails_next (sink_plan self.old) }
        ensures counted { sink_plan self.new ≡ after_call (sink_plan self.old) (is_err result) }
    {
        self.plan.call(true)?;
        self.finished = self.finished.saturating_add(1);
        Ok(())
    }
}

// Copies as many bytes as both have, `most` at most, and says how many.
fn copy_front(from: &[u8], to: &mut [u8], most: usize) -> usize
    ensures count { result ≡ min most (min (length to.old) (length from.now)) }
    ensures copied { take result to.new ≡ take result from.now }
{
    let count = most.min(to.len().min(from.len()));
    to[..count].copy_from_slice(&from[..count]);
    count
}
