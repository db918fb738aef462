//! What a sync saw: the Job and its pods, as the first entries of the log have them.

ghost use Rattle.std.specs.Prelude.{◌≡◌, ◌+◌, ◌<◌, ◌≤◌, ◌∷◌, List, IfOk, OnOk, filter, find, if◌then◌else◌, is_some, length, reverse, take};
ghost use Rattle.std.specs.Option.{option_copied};
ghost use Rattle.jc_types.specs.declared.numbers.Uid.{Uid};
ghost use Rattle.jc_types.specs.declared.objects.Entry.{Entry};
ghost use Rattle.jc_types.specs.Keys.{same_uid};
ghost use Rattle.jc_log.specs.Log.{job_in};
ghost use Rattle.jc_log.specs.PlainReadings.{job_put};
ghost use Rattle.jc_states.specs.PodLists.{IsRising, drop_pod, place_from, put_pod};
ghost use Rattle.jc_failpol.specs.declared.outcomes.Outcome.{Outcome};
ghost use Rattle.jc_verdicts.specs.LogPlaces.{ArePlaces, touching_places};
ghost use Rattle.jc_verdicts.specs.Verdicts.{HasSeen, kept_pods, stays};

use crate::places::{Places, count_below, count_on, places_at};
use indexmap::IndexMap;
use jc_failpol::Outcome;
use jc_states::{is_active, is_there, place_from};
use jc_types::{Arc, Copied, Entry, Job, Key, Pod, Uid, Want};

/// How many of the first n entries there are.
pub fn end_of(log: &[Entry], n: u32) -> usize
    ensures within { result ≤ length log.now }
    ensures same { take result log.now ≡ take n log.now }
{
    if (n as usize) < log.len() {
        n as usize
    } else {
        log.len()
    }
}

/// The Job that the entry puts.
fn put_job(entry: &Entry) -> Option<&Job>
    ensures { option_copied result ≡ job_put entry.now }
{
    match entry {
        Entry::JobPut(job) => Some(job),
        Entry::JobGone(_) | Entry::PodPut(_) | Entry::PodGone(_) => None,
    }
}

/// The Job of the key among the first entries: as the last of them about the key says.
pub fn job_among<'a>(log: &'a [Entry], places: &Places, end: usize, key: &Key) -> Option<&'a Job>
    requires within { end ≤ length log.now }
    requires places { ArePlaces (reverse log.now) places.now }
    ensures { option_copied result ≡ job_in key.now (reverse (take end log.now)) }
{
    let told = places_at(&places.jobs, key);
    let count = count_below(told, end);
    if count == 0 {
        return None;
    }
    let place = told[count - 1];
    put_job(&log[place])
}

/// Whether a write of the Job may have to look at the pod: it has the finalizer, and is not active
/// or was judged. Of the others none is judged, and none takes room.
fn stays(known: &IndexMap<Uid, Outcome>, pod: &Pod) -> bool
    ensures { result ≡ stays known.now.entries pod.now }
{
    pod.tracked && (!is_active(pod) || known.contains_key(&pod.uid))
}

/// Puts a pod of the Job in its place. One that does not stay is written only over that of its UID:
/// to take each out alone would move all that come after it. It is copied only where it is put.
fn put(pods: &mut Vec<Arc<Pod>>, known: &IndexMap<Uid, Outcome>, pod: &Arc<Pod>) -> Result<(), Want>
    requires { IsRising pods.old.items }
    ensures rising { OnOk result (IsRising pods.new.items) }
    ensures puts { OnOk result (filter (stays known.now.entries) pods.new.items
        ≡ (if stays known.now.entries pod.now
        then put_pod pod.now (filter (stays known.now.entries) pods.old.items)
        else drop_pod pod.now.uid (filter (stays known.now.entries) pods.old.items))) }
{
    let place = place_from(pods.as_slice(), pod.uid);
    if is_there(pods.as_slice(), pod.uid, place) {
        let again = pod.copy()?;
        pods[place] = again;
        return Ok(());
    }
    if stays(known, pod) {
        let added = pod.copy()?;
        pods.insert(place, added)?;
    }
    Ok(())
}

/// Takes the pod of the UID out, if there is one.
fn take_out(pods: &mut Vec<Arc<Pod>>, uid: Uid)
    requires { IsRising pods.old.items }
    ensures { pods.new.items ≡ drop_pod uid pods.old.items }
{
    let place = place_from(pods.as_slice(), uid);
    if is_there(pods.as_slice(), uid, place) {
        pods.remove(place);
    }
}

/// Takes one more entry into the pods of a Job, so that those that stay are right. One about a pod of
/// another Job takes its UID out.
fn take_in(
    pods: &mut Vec<Arc<Pod>>,
    known: &IndexMap<Uid, Outcome>,
    owner: Uid,
    entry: &Entry,
) -> Result<(), Want>
    requires { IsRising pods.old.items }
    ensures rising { OnOk result (IsRising pods.new.items) }
    ensures pods { OnOk result ((older : List Entry)
        → filter (stays known.now.entries) pods.old.items
        ≡ kept_pods known.now.entries owner older
        → filter (stays known.now.entries) pods.new.items
        ≡ kept_pods known.now.entries owner (entry.now ∷ older)) }
{
    match entry {
        Entry::PodPut(pod) => {
            if pod.owner_uid.0 == owner.0 {
                put(pods, known, pod)?;
            } else {
                take_out(pods, pod.uid);
            }
            Ok(())
        }
        Entry::PodGone(pod) => {
            take_out(pods, pod.uid);
            Ok(())
        }
        Entry::JobPut(_) | Entry::JobGone(_) => Ok(()),
    }
}

/// Takes the entry at a place into the pods of a Job.
fn take_at(
    pods: &mut Vec<Arc<Pod>>,
    known: &IndexMap<Uid, Outcome>,
    owner: Uid,
    log: &[Entry],
    place: usize,
) -> Result<(), Want>
    requires place { place < length log.now }
    requires pods { IsRising pods.old.items }
    ensures rising { OnOk result (IsRising pods.new.items) }
    ensures pods { OnOk result (filter (stays known.now.entries) pods.old.items
        ≡ kept_pods known.now.entries owner (reverse (take place log.now))
        → filter (stays known.now.entries) pods.new.items
        ≡ kept_pods known.now.entries owner (reverse (take (place + 1) log.now))) }
{
    take_in(pods, known, owner, &log[place])
}

/// From where in a list of places the pods go on to the first so many of them. Where that is fewer
/// than they were taken from, they are dropped, and taken from the first place on again.
fn begin_of(pods: &mut Vec<Arc<Pod>>, at: usize, count: usize) -> usize
    ensures before { result ≤ count }
    ensures seen { (owner : Uid) (log : List Entry) (known : List (Uid × Outcome))
        → HasSeen owner log known pods.old.items at
        → HasSeen owner log known pods.new.items result }
{
    if count < at {
        pods.clear();
        return 0;
    }
    at
}

/// Leaves out the pods that do not stay.
fn retain_staying(pods: &mut Vec<Arc<Pod>>, known: &IndexMap<Uid, Outcome>)
    ensures { pods.new.items ≡ filter (stays known.now.entries) pods.old.items }
{
    pods.retain(|pod| stays(known, pod));
}

/// Takes the entries at some of the places into the pods of a Job, with such as do not stay.
fn go_on(
    pods: &mut Vec<Arc<Pod>>,
    known: &IndexMap<Uid, Outcome>,
    owner: Uid,
    log: &[Entry],
    places: &[usize],
    from: usize,
    to: usize,
) -> Result<(), Want>
    requires places { places.now ≡ touching_places owner log.now }
    requires order { from ≤ to }
    requires within { to ≤ length places.now }
    requires seen { HasSeen owner log.now known.now.entries pods.old.items from }
    ensures { OnOk result (HasSeen owner log.now known.now.entries
        (filter (stays known.now.entries) pods.new.items) to) }
{
    for at in from..to {
        take_at(pods, known, owner, log, places[at])?;
    }
    Ok(())
}

/// Moves the pods of a Job on to the first entries that a sync saw, from those at the first places
/// of its list. It returns at how many places they are then.
pub fn look(
    pods: &mut Vec<Arc<Pod>>,
    known: &IndexMap<Uid, Outcome>,
    at: usize,
    owner: Uid,
    log: &[Entry],
    places: &[usize],
    seen: u32,
) -> Result<usize, Want>
    requires places { places.now ≡ touching_places owner log.now }
    requires seen { HasSeen owner log.now known.now.entries pods.old.items at }
    ensures pods { OnOk result
        (pods.new.items ≡ kept_pods known.now.entries owner (reverse (take seen log.now))) }
    ensures seen { IfOk result (λ now. HasSeen owner log.now known.now.entries pods.new.items now) }
{
    let count = count_on(places, at, end_of(log, seen));
    let from = begin_of(pods, at, count);
    go_on(pods, known, owner, log, places, from, count)?;
    retain_staying(pods, known);
    Ok(count)
}
