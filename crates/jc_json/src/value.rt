//! Values that borrow their texts from the line that they were read of.

ghost use Rattle.std.specs.Prelude.{◌≡◌, bytes_eq, is_some, option_map};
ghost use Rattle.serde_json.specs.Data.{boolean, no_members};
ghost use Rattle.serde_json.specs.Find.{as_array, as_object, get, get_member};
ghost use Rattle.jc_json.specs.View.{view, items_view, members_view};

use serde_json::Number;

/// A JSON value. Its texts lie in the line, or in the room that the line was read with, as its parts do.
#[derive(Clone, Copy, Drop)]
pub enum Value<'a> {
    Null,
    True,
    False,
    Number(Number),
    String(&'a str),
    Array(&'a [Value<'a>]),
    /// The members in the order of the line. Of a name that stands twice the last value counts.
    Object(&'a [(&'a str, Value<'a>)]),
}

impl<'a> Value<'a> {
    /// The items, where this is an array.
    pub fn as_array(&self) -> Option<&'a [Value<'a>]>
        ensures { option_map (λ v. items_view v.now) result ≡ as_array (view self.now) }
    {
        if let Value::Array(items) = self {
            Some(*items)
        } else {
            None
        }
    }

    /// The members in the order of the line, where this is an object.
    pub fn as_object(&self) -> Option<&'a [(&'a str, Value<'a>)]>
        ensures { option_map (λ v. members_view v.now no_members) result
            ≡ as_object (view self.now) }
    {
        if let Value::Object(members) = self {
            Some(*members)
        } else {
            None
        }
    }

    /// Whether this is an object.
    pub fn is_object(&self) -> bool
        ensures { result ≡ is_some (as_object (view self.now)) }
    {
        self.as_object().is_some()
    }

    /// The member of that name, where this is an object.
    pub fn get(&self, name: &str) -> Option<&'a Value<'a>>
        ensures { option_map (λ v. view v.now) result ≡ get name.now (view self.now) }
    {
        if let Value::Object(members) = self {
            find(*members, name)
        } else {
            None
        }
    }
}

/// The value of a truth. It is one without parts: behind a byte of its own it would stand at an odd place, and each value
/// would be moved in pieces.
pub(crate) fn truth<'a>(is_true: bool) -> Value<'a>
    ensures { view result ≡ boolean is_true }
{
    if is_true { Value::True } else { Value::False }
}

// Whether a name is the other. One of another length is passed with no call.
#[inline(always)]
fn is_named(name: &str, other: &str) -> bool
    ensures { result ≡ bytes_eq name.now other.now }
{
    name.len() == other.len() && name == other
}

// The last member of that name.
fn find<'a>(members: &'a [(&'a str, Value<'a>)], name: &str) -> Option<&'a Value<'a>>
    ensures { option_map (λ v. view v.now) result
        ≡ get_member name.now (members_view members.now no_members) }
{
    let mut left = members.len();
    while left > 0 {
        left -= 1;
        let member = &members[left];
        if is_named(member.0, name) {
            return Some(&member.1);
        }
    }
    None
}
