//! The members of an object in byte order of their names.

ghost use Rattle.std.specs.Prelude.{◌≡◌, IfOk};
ghost use Rattle.serde_json.specs.Data.{no_members};
ghost use Rattle.jc_json.specs.View.{members_view, ordered_view};

use crate::value::Value;
use std::alloc::{AllocError, Global};
use std::collections::BTreeMap;

/// The members of an object in byte order of their names, each once.
pub type Ordered<'v, 'a> = BTreeMap<&'v str, &'v Value<'a>>;

/// The members of an object in byte order of their names. Of a name that stands twice the last
/// value counts.
pub fn in_order<'v, 'a>(
    alloc: Global,
    members: &'v [(&'a str, Value<'a>)],
) -> Result<Ordered<'v, 'a>, AllocError>
    ensures { IfOk result (λ m. ordered_view m.entries ≡ members_view members.now no_members) }
{
    let mut ordered = Ordered::new(alloc);
    for member in members {
        drop(ordered.insert(member.0, &member.1)?);
    }
    Ok(ordered)
}
