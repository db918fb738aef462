//! What is kept under UIDs. Those of a run are dense: so for UIDs below a bound it stands in a list under
//! their number, and only that of others in a map.

ghost use Rattle.std.specs.Prelude.{◌≡◌, [], IfOk, None, OnOk, Some, if◌then◌else◌};
ghost use Rattle.jc_types.specs.declared.numbers.Uid.{Uid};
ghost use Rattle.jc_types.specs.Keys.{same_uid};
ghost use Rattle.jc_verdicts.specs.ByUid.{AddsTo, AreEmpty, Sets, places_under, owner_in};

use crate::places::{add_place, places_at};
use indexmap::IndexMap;
use jc_types::{Uid, Want};
use std::alloc::Global;

/// A list of places for each UID; an empty one at first.
#[derive(Drop)]
pub struct Lists {
    pub near: Vec<Vec<usize>>,
    pub far: IndexMap<Uid, Vec<usize>>,
}

/// The owner of each pod, by its UID, that has one; none has one at first.
#[derive(Drop)]
pub struct Owners {
    pub near: Vec<Option<Uid>>,
    pub far: IndexMap<Uid, Uid>,
}

/// So many empty lists.
#[tactic(auto, using(crate::proofs::ByUidFacts::empty_more))]
fn empty_lists(alloc: Global, bound: usize) -> Result<Vec<Vec<usize>>, Want>
    ensures { IfOk result (λ lists. AreEmpty lists.items) }
{
    let mut lists = Vec::new(alloc);
    lists.reserve(bound)?;
    for _ in 0..bound {
        lists.push(Vec::new(alloc))?;
    }
    Ok(lists)
}

/// Lists that are empty, where those of so many UIDs stand under their numbers.
pub fn new_lists(alloc: Global, bound: usize) -> Result<Lists, Want>
    ensures { IfOk result (λ lists. (u : Uid) → places_under lists u ≡ []) }
{
    Ok(Lists {
        near: empty_lists(alloc, bound)?,
        far: IndexMap::new(alloc),
    })
}

/// The list of a UID.
pub fn places_under(lists: &Lists, uid: Uid) -> &[usize]
    ensures { result.now ≡ places_under lists.now uid }
{
    if (uid.0 as usize) < lists.near.len() {
        return lists.near[uid.0 as usize].as_slice();
    }
    places_at(&lists.far, &uid)
}

/// Adds a place to the list of a UID.
pub fn add_to(alloc: Global, lists: &mut Lists, uid: Uid, place: usize) -> Result<(), Want>
    ensures { OnOk result (AddsTo lists.old lists.new (same_uid uid) place) }
{
    if (uid.0 as usize) < lists.near.len() {
        lists.near[uid.0 as usize].push(place)?;
        return Ok(());
    }
    add_place(alloc, &mut lists.far, &uid, place)
}

/// No owners, where those of so many UIDs stand under their numbers.
pub fn new_owners(alloc: Global, bound: usize) -> Result<Owners, Want>
    ensures { IfOk result (λ owners. (u : Uid) → owner_in owners u ≡ None) }
{
    Ok(Owners {
        near: Vec::from_elem(alloc, None, bound)?,
        far: IndexMap::new(alloc),
    })
}

/// Sets the owner of a pod, and returns the one that it had.
pub fn put_owner(owners: &mut Owners, pod: Uid, owner: Uid) -> Result<Option<Uid>, Want>
    ensures before { IfOk result (λ before. before ≡ owner_in owners.old pod) }
    ensures sets { OnOk result (Sets owners.old owners.new pod (Some owner)) }
{
    if (pod.0 as usize) < owners.near.len() {
        let place = pod.0 as usize;
        let before = owners.near[place];
        owners.near[place] = Some(owner);
        return Ok(before);
    }
    let before = owners.far.insert(pod, owner)?;
    Ok(before)
}

/// Takes the owner of a pod out, and returns it.
pub fn take_owner(owners: &mut Owners, pod: Uid) -> Option<Uid>
    ensures before { result ≡ owner_in owners.old pod }
    ensures sets { Sets owners.old owners.new pod None }
{
    if (pod.0 as usize) < owners.near.len() {
        let place = pod.0 as usize;
        let before = owners.near[place];
        owners.near[place] = None;
        return before;
    }
    owners.far.swap_remove(&pod)
}
