//! Lists of calls of a queue: what they get was not processing when it was got.

ghost use Rattle.std.specs.Prelude.{◌≡◌, IfOk, List, OnErr, OnOk, option_to_list};
ghost use Rattle.jc_queue.specs.QueueCalls.{GetsIdle, StopsAfter, after, called, finished_if_processing, finished_oldest, keys_got, keys_got_by};
ghost use Rattle.jc_queue.specs.Queued.{IsQueue, Queued};
ghost use Rattle.jc_queue.specs.declared.calls.Call.{Call};

use crate::queue::Queue;
use jc_types::{Copied, Key, Want};
use std::alloc::Global;

/// A call of a queue.
#[derive(Drop)]
pub enum Call {
    /// Add the key.
    Add(Key),
    /// Get the first key of the line.
    Get,
    /// Finish the key that has been processing for longest, where there is one.
    Done,
    /// Finish the key, where it is processing.
    Finish(Key),
    /// Send the first key of the line to the line's end.
    SendBack,
    /// Take the key back.
    Retract(Key),
}

/// Makes the calls in their order, and hands over the keys that were got. None of them was processing
/// when it was got.
///
/// # Errors
/// `Want` where there is no memory; some of the calls are then made, from the first on.
pub fn run(alloc: Global, queue: &mut Queue, calls: &[Call]) -> Result<Vec<Key>, Want>
    ensures state { OnOk result (queue.new.queue ≡ after queue.old.queue calls.now) }
    ensures keys { IfOk result (λ keys. keys.items ≡ keys_got queue.old.queue calls.now) }
    ensures want { OnErr result (StopsAfter queue.old.queue calls.now queue.new.queue) }
    ensures apart { GetsIdle queue.old.queue calls.now }
{
    let mut keys = Vec::with_capacity(alloc, queue.len())?;
    for call in calls {
        keys.reserve(1)?;
        if let Some(key) = make(queue, call)? {
            keys.push_reserved(key);
        }
    }
    Ok(keys)
}

// Makes the call, and hands over the key that it gets.
fn make(queue: &mut Queue, call: &Call) -> Result<Option<Key>, Want>
    ensures state { OnOk result (queue.new.queue ≡ called queue.old.queue call.now) }
    ensures key { IfOk result (λ key. option_to_list key ≡ keys_got_by queue.old.queue call.now) }
    ensures kept { OnErr result (queue.new.queue ≡ queue.old.queue) }
{
    match call {
        Call::Add(key) => queue.add(key)?,
        Call::Get => return Ok(queue.get()),
        Call::Done => finish_oldest(queue)?,
        Call::Finish(key) => finish(queue, key),
        Call::SendBack => queue.send_back(),
        Call::Retract(key) => queue.retract(key),
    }
    Ok(None)
}

// Finishes the key, where it is processing.
fn finish(queue: &mut Queue, key: &Key)
    ensures { queue.new.queue ≡ finished_if_processing queue.old.queue key.now }
{
    if queue.is_processing(key) {
        queue.done(key);
    }
}

// Finishes the key that has been processing for longest, where there is one.
fn finish_oldest(queue: &mut Queue) -> Result<(), Want>
    ensures state { OnOk result (queue.new.queue ≡ finished_oldest queue.old.queue) }
    ensures kept { OnErr result (queue.new.queue ≡ queue.old.queue) }
{
    let Some(oldest) = queue.oldest() else {
        return Ok(());
    };
    let key = oldest.copy()?;
    queue.done(&key);
    Ok(())
}

/// Whatever calls are made of a queue, no key is got while it is processing.
pub fn gets_no_processing_key()
    ensures { (q : Queued) (calls : List Call) → IsQueue q → GetsIdle q calls }
{}
