//! The work queue: a line of keys without repeats, the dirty keys, and those that are processing.

ghost use Rattle.std.specs.Prelude.{◌≡◌, ◌+◌, ◌++◌, ◌≤◌, ◌<◌, ◌^◌, [], IfOk, IfSome, OnErr, OnOk, false, is_some, length, max, not, position, slice_get, true};
ghost use Rattle.std.specs.List.{IsDistinct};
ghost use Rattle.std.specs.Option.{option_copied};
ghost use Rattle.std.specs.Vec.{vec_capacity, vec_len};
ghost use Rattle.std.specs.VecDeque.{deque_capacity, deque_len};
ghost use Rattle.indexmap.specs.IndexSet.{spare};
ghost use Rattle.jc_types.specs.Keys.{same_key};
ghost use Rattle.jc_queue.specs.Queued.{IsQueue, added, finished, got, has_key, plus_key, queue_of, retracted, sent_back, key_set, without};

use crate::copied::{copied, copied_set};
use crate::copies::{Twice, places};
use indexmap::IndexSet;
use jc_table::has_key;
use jc_types::{Copied, Key, Want};
use std::alloc::Global;
use std::collections::VecDeque;
use std::marker::Model;

/// A work queue. A key that was added is dirty until it is got, and a key that was got is processing
/// until it is done. The line holds the dirty keys that are not processing. A contract sees it beside its
/// room: so many more keys it takes with no memory.
#[derive(Drop)]
pub struct Queue {
    line: VecDeque<Key>,
    dirty: IndexSet<Key>,
    // Few: at most one for each worker.
    processing: Vec<Key>,
    room: usize,
}

impl Model for Queue {
    ghost use Rattle.std.specs.Prelude.{◌+◌, ◌≤◌};
    ghost use Rattle.std.specs.Vec.{vec_capacity, vec_len};
    ghost use Rattle.std.specs.VecDeque.{deque_capacity, deque_len};
    ghost use Rattle.indexmap.specs.IndexSet.{spare};
    ghost use Rattle.jc_queue.specs.Queued.{IsQueue, RoomedQueue, queue_of, key_set};

    ghost Value = { RoomedQueue };

    ghost view = { λ q. record {
      queue = queue_of q.line.items (key_set q.dirty.keys) q.processing.items;
      room = q.room;
    } };

    // A key in line may come to be processing, and a processing key may come into line, with no memory.
    ghost invariant = { λ q. IsQueue (queue_of q.line.items (key_set q.dirty.keys) q.processing.items)
        × (deque_len q.line + vec_len q.processing + q.room ≤ deque_capacity q.line)
        × (deque_len q.line + vec_len q.processing + q.room ≤ vec_capacity q.processing)
        × (q.room ≤ spare q.dirty) };
}

impl Queue {
    /// The empty queue. It takes no memory.
    pub fn new(alloc: Global) -> Self
        ensures queue { result.queue ≡ queue_of [] [] [] }
        ensures room { result.room ≡ 0 }
    {
        Queue {
            line: VecDeque::new(alloc),
            dirty: IndexSet::new(alloc),
            processing: Vec::new(alloc),
            room: 0,
        }
    }

    /// Makes room for so many more keys, where there is less.
    ///
    /// # Errors
    /// `Want` where there is no memory for it; the queue and its room are then as before.
    pub fn reserve(&mut self, room: usize) -> Result<(), Want>
        ensures queue { self.new.queue ≡ self.old.queue }
        ensures room { OnOk result (self.new.room ≡ max self.old.room room) }
        ensures kept { OnErr result (self.new ≡ self.old) }
    {
        if room <= self.room {
            return Ok(());
        }
        self.line.reserve(places(self.processing.len(), room)?)?;
        self.processing.reserve(places(self.line.len(), room)?)?;
        self.dirty.reserve(room)?;
        self.room = room;
        Ok(())
    }

    /// Adds a key. A key that is dirty changes nothing; another becomes dirty and, where it is not
    /// processing, goes to the line's end. The memory that `get` and `done` need is taken here.
    ///
    /// # Errors
    /// `Want` where there is no memory for it; the queue is then as before.
    pub fn add(&mut self, key: &Key) -> Result<(), Want>
        ensures added { OnOk result (self.new.queue ≡ added self.old.queue key.now) }
        ensures room { self.new.room ≡ self.old.room }
        ensures kept { OnErr result (self.new ≡ self.old) }
    {
        // Most keys that come are dirty.
        if self.is_dirty(key) {
            return Ok(());
        }
        self.add_clean(key)
    }

    /// Adds a key as `add` does, which is not dirty.
    ///
    /// # Errors
    /// `Want` where there is no memory for it; the queue is then as before.
    pub fn add_clean(&mut self, key: &Key) -> Result<(), Want>
        requires clean { has_key key.now self.old.queue.dirty ≡ false }
        ensures added { OnOk result (self.new.queue ≡ added self.old.queue key.now) }
        ensures room { self.new.room ≡ self.old.room }
        ensures kept { OnErr result (self.new ≡ self.old) }
    {
        let twice = Twice::of(key)?;
        self.reserve(places(self.room, 1)?)?;
        self.add_reserved(twice);
        Ok(())
    }

    /// Adds a key as `add` does, in the room that there is. It takes no memory.
    pub fn add_reserved(&mut self, key: Twice)
        requires room { 0 < self.old.room }
        ensures added { self.new.queue ≡ added self.old.queue key }
        ensures room { self.new.room + 1 ≡ self.old.room }
    {
        let (key, again) = key.into_keys();
        self.room -= 1;
        if !put_in(&mut self.dirty, again) {
            return;
        }
        if has_key(&self.processing, &key) {
            return;
        }
        self.line.push_back_reserved(key);
    }

    /// Takes the first key from the line; it is then processing, and dirty no more. `None` exactly where
    /// the line is empty. It takes no memory.
    pub fn get(&mut self) -> Option<Key>
        ensures first { result ≡ slice_get self.old.queue.line 0 }
        ensures got { self.new.queue ≡ got self.old.queue }
        ensures apart { IfSome result (λ k. has_key k self.old.queue.processing ≡ false) }
        ensures room { self.new.room ≡ self.old.room }
    {
        let key = self.line.pop_front()?;
        let Some(held) = take_from(&mut self.dirty, &key) else {
            unreachable!()
        };
        self.processing.push_reserved(held);
        Some(key)
    }

    /// Ends the processing of a key; where it is dirty it goes to the line's end. It takes no memory.
    pub fn done(&mut self, key: &Key)
        requires processing { has_key key.now self.old.queue.processing ≡ true }
        ensures finished { self.new.queue ≡ finished self.old.queue key.now }
        ensures room { self.new.room ≡ self.old.room }
    {
        let held = take_out(&mut self.processing, key);
        if is_in(&self.dirty, key) {
            self.line.push_back_reserved(held);
        }
    }

    /// The first key of the line; `None` exactly where the line is empty.
    pub fn first(&self) -> Option<&Key>
        ensures first { option_copied result ≡ slice_get self.now.queue.line 0 }
        ensures apart { IfSome result (λ k. has_key k.now self.now.queue.processing ≡ false) }
    {
        self.line.front()
    }

    /// Sends the first key of the line to the line's end; it stays dirty. An empty line changes nothing.
    /// It takes no memory.
    pub fn send_back(&mut self)
        ensures sent_back { self.new.queue ≡ sent_back self.old.queue }
        ensures room { self.new.room ≡ self.old.room }
    {
        let Some(key) = self.line.pop_front() else {
            return;
        };
        self.line.push_back_reserved(key);
    }

    /// Takes a key back: it is in line and dirty no more, as before it was added. It takes no memory.
    pub fn retract(&mut self, key: &Key)
        ensures retracted { self.new.queue ≡ retracted self.old.queue key.now }
        ensures room { self.new.room ≡ self.old.room }
    {
        take_from_line(&mut self.line, key);
        take_from(&mut self.dirty, key);
    }

    /// Whether the key is dirty.
    pub fn is_dirty(&self, key: &Key) -> bool
        ensures dirty { result ≡ has_key key.now self.now.queue.dirty }
        ensures queue { IsQueue self.now.queue }
    {
        is_in(&self.dirty, key)
    }

    /// Whether the key is processing.
    pub fn is_processing(&self, key: &Key) -> bool
        ensures { result ≡ has_key key.now self.now.queue.processing }
    {
        has_key(&self.processing, key)
    }

    /// The number of keys in line.
    pub fn len(&self) -> usize
        ensures count { result ≡ length self.now.queue.line }
        ensures queue { IsQueue self.now.queue }
    {
        self.line.len()
    }

    /// The number of keys that are processing.
    pub fn processing(&self) -> usize
        ensures count { result ≡ length self.now.queue.processing }
        ensures small { result < 2 ^ 63 }
    {
        self.processing.len()
    }

    // The key that has been processing for longest.
    pub(crate) fn oldest(&self) -> Option<&Key>
        ensures { option_copied result ≡ slice_get self.now.queue.processing 0 }
    {
        self.processing.first()
    }
}

impl Copied for Queue {
    fn copy(&self) -> Result<Queue, Want> {
        let alloc = *self.line.allocator();
        let (front, back) = self.line.as_slices();
        let mut line = copied(alloc, front, back)?;
        let mut processing = copied(alloc, self.processing.as_slice(), &[])?;
        let mut dirty = copied_set(alloc, self.dirty.as_slice())?;
        line.reserve(places(processing.len(), self.room)?)?;
        processing.reserve(places(line.len(), self.room)?)?;
        dirty.reserve(self.room)?;
        Ok(Queue {
            line: VecDeque::from_vec(line),
            dirty,
            processing,
            room: self.room,
        })
    }
}

// Whether the key is one of the set.
fn is_in(set: &IndexSet<Key>, key: &Key) -> bool
    ensures { result ≡ has_key key.now (key_set set.now.keys) }
{
    set.contains(key)
}

// Puts the key into the set, in the room that there is, and says whether it was not in it.
fn put_in(set: &mut IndexSet<Key>, key: Key) -> bool
    requires room { 0 < spare set.old }
    ensures new { result ≡ not (has_key key (key_set set.old.keys)) }
    ensures set { key_set set.new.keys ≡ plus_key key (key_set set.old.keys) }
    ensures same { result ≡ false → set.new.keys ≡ set.old.keys }
    ensures room { spare set.old ≤ spare set.new + 1 }
{
    let Ok(is_new) = set.insert(key) else {
        unreachable!()
    };
    is_new
}

// Takes the key out of the set, where it is in it. It does not move the other keys.
fn take_from(set: &mut IndexSet<Key>, key: &Key) -> Option<Key>
    ensures taken { IfSome result (λ taken. taken ≡ key.now) }
    ensures found { is_some result ≡ has_key key.now (key_set set.old.keys) }
    ensures set { key_set set.new.keys ≡ without key.now (key_set set.old.keys) }
    ensures room { spare set.old ≤ spare set.new }
{
    set.swap_take(key)
}

// The place of the key in line.
fn place_in_line(line: &VecDeque<Key>, key: &Key) -> Option<usize>
    ensures place { result ≡ position (same_key key.now) line.now.items }
    ensures within { IfSome result (λ place. place < deque_len line.now) }
{
    line.iter().position(|other| *key == *other)
}

// Takes the key out of the line, where it is in it.
fn take_from_line(line: &mut VecDeque<Key>, key: &Key)
    ensures items { line.new.items ≡ without key.now line.old.items }
    ensures fewer { deque_len line.new ≤ deque_len line.old }
    ensures capacity { deque_capacity line.new ≡ deque_capacity line.old }
{
    let Some(place) = place_in_line(line, key) else {
        return;
    };
    line.remove(place);
}

// The place of the key among the keys.
fn place_of(keys: &[Key], key: &Key) -> Option<usize>
    ensures { result ≡ position (same_key key.now) keys.now }
{
    keys.iter().position(|other| *key == *other)
}

// Takes the key out of the keys.
fn take_out(keys: &mut Vec<Key>, key: &Key) -> Key
    requires there { has_key key.now keys.old.items ≡ true }
    ensures taken { result ≡ key.now }
    ensures items { keys.new.items ≡ without key.now keys.old.items }
    ensures count { vec_len keys.new + 1 ≡ vec_len keys.old }
    ensures capacity { vec_capacity keys.new ≡ vec_capacity keys.old }
{
    let Some(place) = place_of(keys, key) else {
        unreachable!()
    };
    keys.remove(place)
}
