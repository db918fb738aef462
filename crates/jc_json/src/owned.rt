//! A value that borrows its texts from one that owns them.

ghost use Rattle.std.specs.Prelude.{◌≡◌, IfOk};
ghost use Rattle.serde_json.specs.Data.{no_members};
ghost use Rattle.serde_json.specs.View as owned;
ghost use Rattle.jc_json.specs.View.{view, items_view, members_view};

use crate::value::{Value, truth};
use bumpalo::Bump;
use bumpalo::collections::into_bump_slice;
use serde_json::{Map, Value as Owned};
use std::alloc::AllocError;

/// The same value, whose texts are those of `value`, and whose lists lie in the arena beside what is there.
pub fn borrowed<'v>(bump: &'v Bump, value: &'v Owned) -> Result<Value<'v>, AllocError>
    ensures { IfOk result (λ v. view v ≡ owned.view value.now) }
{
    copy(bump, value)
}

#[cycle(copy)]
fn copy<'v>(bump: &'v Bump, value: &'v Owned) -> Result<Value<'v>, AllocError>
    ensures { IfOk result (λ v. view v ≡ owned.view value.now) }
{
    match value {
        Owned::Null => Ok(Value::Null),
        Owned::Bool(b) => Ok(truth(*b)),
        Owned::Number(n) => Ok(Value::Number(*n)),
        Owned::String(text) => Ok(Value::String(text.as_str())),
        Owned::Array(items) => Ok(Value::Array(copy_items(bump, items)?)),
        Owned::Object(members) => Ok(Value::Object(copy_members(bump, members)?)),
    }
}

#[cycle(copy)]
fn copy_items<'v>(bump: &'v Bump, items: &'v Vec<Owned>) -> Result<&'v [Value<'v>], AllocError>
    ensures { IfOk result (λ v. items_view v.now ≡ owned.items_view items.now.items) }
{
    let mut copies = Vec::with_capacity(bump, items.len())?;
    for item in items {
        copies.push(copy(bump, item)?)?;
    }
    Ok(into_bump_slice(copies))
}

#[cycle(copy)]
fn copy_members<'v>(
    bump: &'v Bump,
    members: &'v Map<String, Owned>,
) -> Result<&'v [(&'v str, Value<'v>)], AllocError>
    ensures { IfOk result (λ v. members_view v.now no_members
        ≡ owned.members_view members.now.entries) }
{
    let mut copies = Vec::with_capacity(bump, members.len())?;
    for (name, member) in members.iter() {
        copies.push((name.as_str(), copy(bump, member)?))?;
    }
    Ok(into_bump_slice(copies))
}
