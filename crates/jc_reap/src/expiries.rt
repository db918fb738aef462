//! When finished Jobs may go, and in which order.

ghost use Rattle.std.specs.Prelude.{◌≡◌, IfOk, OnOk};
ghost use Rattle.jc_types.specs.declared.numbers.Uid.{Uid};
ghost use Rattle.jc_types.specs.Keys.{same_uid};
ghost use Rattle.jc_log.specs.Tables.{at};
ghost use Rattle.jc_reap.specs.Expiries.{after_end, ended_at, expired, expires_at, is_end, ttl_at, with_expiry};

use jc_core::Moment;
use jc_table::Table;
use jc_types::{Arc, CondKind, Condition, Conditions, Copied, Job, Key, Uid, Want};
use std::alloc::Global;
use std::collections::BTreeMap;

/// When a finished Job may go, and where it stands. Those of an earlier moment are less, and of one
/// moment those of a lesser key.
#[derive(PartialEq, Eq, PartialOrd, Ord, Drop)]
pub struct Expiry {
    /// Its end and its TTL later.
    pub moment: Moment,
    /// The Job's key.
    pub key: Key,
}

// Whether the condition says that the Job has ended.
fn is_end(condition: &Condition) -> bool
    ensures { result ≡ is_end condition.now }
{
    (condition.kind == CondKind::Failed || condition.kind == CondKind::Complete) && condition.status
}

// When the Job of these conditions ended.
fn ended_at(conditions: &Conditions) -> Option<Moment>
    ensures { result ≡ ended_at conditions.now }
{
    let end = conditions
        .as_slice()
        .iter()
        .find(|condition| is_end(condition))?;
    Some(end.since)
}

// So many seconds after the end, where that is not past the last moment.
fn after_end(ended: Option<Moment>, ttl: Option<u32>) -> Option<Moment>
    ensures { result ≡ after_end ended ttl }
{
    ended?.plus(u64::from(ttl?))
}

// When the Job may go.
fn expires_at(job: &Job, ttl: Option<u32>) -> Option<Moment>
    ensures { result ≡ expires_at job.now ttl }
{
    after_end(ended_at(&job.status.conditions), ttl)
}

// The TTL that the command that made the Job gave it.
fn ttl_of(makers: &Table<Uid, u32>, ttls: &[Option<u32>], uid: Uid) -> Option<u32>
    ensures { result ≡ ttl_at ttls.now (at same_uid makers.now uid) }
{
    let place = makers.get(&uid)?;
    let ttl = ttls.get(*place as usize)?;
    *ttl
}

// Puts the Job at its place among those that may go, where it may go.
fn put_expiry(rows: &mut BTreeMap<Expiry, Uid>, job: &Job, ttl: Option<u32>) -> Result<(), Want>
    ensures { OnOk result (rows.new.entries
        ≡ with_expiry (expires_at job.now ttl) job.now rows.old.entries) }
{
    let Some(moment) = expires_at(job, ttl) else {
        return Ok(());
    };
    let key = job.key.copy()?;
    rows.insert(Expiry { moment, key }, job.uid)?;
    Ok(())
}

// Puts the Job at its place among those that may go, where the command that made it lets it go.
fn put_made(
    rows: &mut BTreeMap<Expiry, Uid>,
    makers: &Table<Uid, u32>,
    ttls: &[Option<u32>],
    job: &Arc<Job>,
) -> Result<(), Want>
    ensures { OnOk result (rows.new.entries ≡ with_expiry
        (expires_at job.now (ttl_at ttls.now (at same_uid makers.now job.now.uid)))
        job.now rows.old.entries) }
{
    let ttl = ttl_of(makers, ttls, job.uid);
    put_expiry(rows, job, ttl)
}

// The Jobs that may go, in the order in which they go, where these commands made the Jobs.
pub(crate) fn expired(
    alloc: Global,
    jobs: &Table<Key, Arc<Job>>,
    makers: &Table<Uid, u32>,
    ttls: &[Option<u32>],
) -> Result<BTreeMap<Expiry, Uid>, Want>
    ensures { IfOk result (λ rows. rows.entries
        ≡ expired (λ u. ttl_at ttls.now (at same_uid makers.now u)) jobs.now) }
{
    let mut rows = BTreeMap::new(alloc);
    for row in jobs.rows().rev() {
        put_made(&mut rows, makers, ttls, &row.1)?;
    }
    Ok(rows)
}
