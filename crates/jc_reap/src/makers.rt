//! Which command of a script made each Job.

ghost use Rattle.std.specs.Prelude.{◌≡◌, ◌∷◌, List, IfOk, OnOk, reverse};
ghost use Rattle.jc_types.specs.declared.numbers.Uid.{Uid};
ghost use Rattle.jc_types.specs.declared.runs.Past.{Past};
ghost use Rattle.jc_types.specs.Keys.{same_uid};
ghost use Rattle.jc_log.specs.Tables.{at};
ghost use Rattle.jc_reap.specs.Makers.{made_at, maker};

use jc_table::Table;
use jc_types::{Action1, Command, Event, Past, Reply, Uid, Want};
use std::alloc::Global;

// The UID of the Job that the event made, and the place of the create command that made it.
fn made_at(commands: &[Command], past: &Past) -> Option<(Uid, u32)>
    ensures { result ≡ made_at commands.now past.now }
{
    let Event::Command { number, .. } = past.event else {
        return None;
    };
    let command = commands.get(number as usize)?;
    let Action1::Create { .. } = &command.action else {
        return None;
    };
    match &past.reply {
        Reply::Created { uid, .. } => Some((*uid, number)),
        _ => None,
    }
}

// Notes which Job the event made.
fn put_maker(makers: &mut Table<Uid, u32>, commands: &[Command], past: &Past) -> Result<(), Want>
    ensures { OnOk result ((before : List Past)
        → ((u : Uid) → at same_uid makers.old u ≡ maker commands.now before u)
        → (u : Uid) → at same_uid makers.new u ≡ maker commands.now (past.now ∷ before) u) }
{
    match made_at(commands, past) {
        None => Ok(()),
        Some((uid, number)) => makers.put(uid, number),
    }
}

// The place of the command that made each Job, by UID. The events stand oldest first.
pub(crate) fn makers(
    alloc: Global,
    commands: &[Command],
    events: &[Past],
) -> Result<Table<Uid, u32>, Want>
    ensures { IfOk result (λ makers. (u : Uid)
        → at same_uid makers u ≡ maker commands.now (reverse events.now) u) }
{
    let mut makers = Table::new(alloc);
    for past in events {
        put_maker(&mut makers, commands, past)?;
    }
    Ok(makers)
}
