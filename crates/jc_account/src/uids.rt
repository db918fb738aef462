//! Lists of UIDs.

ghost use Rattle.std.specs.Prelude.{◌≡◌, ◌+◌, ◌<◌, ◌≤◌, IfOk, IfSome, OnOk, is_some, length, nat_le};
ghost use Rattle.std.specs.List.{position};
ghost use Rattle.std.specs.VecDeque.{deque_len};
ghost use Rattle.jc_types.specs.declared.numbers.Uid.{Uid};
ghost use Rattle.jc_types.specs.Keys.{same_uid};
ghost use Rattle.jc_states.specs.UidLists.{Ascends, is_in, merge, with_uid};
ghost use Rattle.jc_account.specs.Accounts.{unreleased};

use jc_states::is_in;
use jc_types::{Copied, Uid, Uids, Want};
use std::alloc::Global;
use std::collections::VecDeque;

// The place of the first UID that is not below the given one.
fn place_of(uid: Uid, uids: &VecDeque<Uid>) -> Option<usize>
    ensures place { result ≡ position (λ (other : Uid). nat_le uid.0 other.0) uids.now.items }
    ensures within { IfSome result (λ place. place < deque_len uids.now) }
{
    uids.iter().position(|other| uid.0 <= other.0)
}

// Puts a UID before the first greater one; a list that has it there stays as it is.
//
// # Errors
// `Want` where there is no memory for it.
fn put(uids: &mut VecDeque<Uid>, uid: Uid) -> Result<(), Want>
    ensures { OnOk result (uids.new.items ≡ with_uid uid uids.old.items) }
{
    match place_of(uid, uids) {
        None => {
            uids.push_back(uid)?;
            Ok(())
        }
        Some(place) => {
            if uids[place].0 == uid.0 {
                return Ok(());
            }
            uids.insert(place, uid)?;
            Ok(())
        }
    }
}

// The UIDs of a slice in a list of their own.
//
// # Errors
// `Want` where there is no memory for them.
fn listed(alloc: Global, uids: &[Uid]) -> Result<Uids, Want>
    ensures { IfOk result (λ list. list ≡ uids.now) }
{
    let mut list = Uids::new(alloc);
    for uid in uids {
        list.push(*uid)?;
    }
    Ok(list)
}

// The UIDs with others, the last of these first: mostly each goes before all, which a double-ended queue does
// without moving the others.
fn with_each(alloc: Global, uids: &[Uid], more: &[Uid]) -> Result<Vec<Uid>, Want>
    ensures merged { IfOk result (λ all. all.items ≡ merge uids.now more.now) }
    ensures no_longer { IfOk result (λ all. length all.items ≤ length uids.now + length more.now) }
{
    let mut all = VecDeque::from_vec(Vec::from_slice(alloc, uids)?);
    for place in (0..more.len()).rev() {
        put(&mut all, more[place])?;
    }
    Ok(all.into_vec())
}

// The UIDs with each of the others in its place. Where one of the lists is empty, the list shares the memory
// of the other.
//
// # Errors
// `Want` where there is no memory for them.
pub(crate) fn merged(alloc: Global, uids: &Uids, more: &Uids) -> Result<Uids, Want>
    requires { Ascends more.now }
    ensures merged { IfOk result (λ list. list ≡ merge uids.now more.now) }
    ensures no_longer { IfOk result (λ list. length list ≤ length uids.now + length more.now) }
{
    if more.is_empty() {
        return uids.copy();
    }
    if uids.is_empty() {
        return more.copy();
    }
    let all = with_each(alloc, uids.as_slice(), more.as_slice())?;
    listed(alloc, all.as_slice())
}

// The place of the first UID that is this one.
fn place_in(uid: Uid, uids: &[Uid]) -> Option<usize>
    ensures place { result ≡ position (λ (other : Uid). same_uid other uid) uids.now }
    ensures within { IfSome result (λ place. place < length uids.now) }
{
    uids.iter().position(|other| other.0 == uid.0)
}

// Where one looks for the next UID, where this one is among the UIDs and is looked for from there on: behind
// it, where both ascend. None where it is not among them.
fn behind(uid: Uid, uids: &[Uid], from: usize) -> Option<usize>
    requires { from ≤ length uids.now }
    ensures found { is_some result ≡ is_in uid uids.now }
    ensures within { IfSome result (λ next. next ≤ length uids.now) }
{
    match place_in(uid, &uids[from..]) {
        Some(place) => Some(from + place + 1),
        None => {
            if is_in(uid, &uids[..from]) {
                Some(from)
            } else {
                None
            }
        }
    }
}

// The UIDs that are not among the released ones.
//
// # Errors
// `Want` where there is no memory for them.
pub(crate) fn unreleased(alloc: Global, released: &[Uid], uids: &[Uid]) -> Result<Uids, Want>
    ensures rest { IfOk result (λ list. list ≡ unreleased released.now uids.now) }
    ensures shorter { IfOk result (λ list. length list ≤ length uids.now) }
{
    let mut rest = Uids::new(alloc);
    let mut from = 0;
    for uid in uids {
        match behind(*uid, released, from) {
            None => rest.push(*uid)?,
            Some(next) => from = next,
        }
    }
    Ok(rest)
}
