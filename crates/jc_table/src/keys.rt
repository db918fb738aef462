//! Lists of keys.

ghost use Rattle.std.specs.Prelude.{◌≡◌};
ghost use Rattle.std.specs.Set.{is_member};
ghost use Rattle.jc_types.specs.Keys.{same_key};

use jc_types::Key;

/// Whether the key is one of the keys.
pub fn has_key(keys: &[Key], key: &Key) -> bool
    ensures { result ≡ is_member same_key keys.now key.now }
{
    keys.iter().any(|other| *key == *other)
}
