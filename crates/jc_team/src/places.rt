//! Values put in the place of others. The types are left open, so that no proof has to follow what is
//! dropped there.

ghost use Rattle.std.specs.Prelude.{◌≡◌, ◌<◌, Some, length, set};
ghost use Rattle.std.specs.Option.{option_map_or};

// Puts the value in the place of the one that is there.
pub(crate) fn put<T: Drop>(place: &mut T, value: T)
    ensures { place.new ≡ value }
{
    *place = value;
}

// Puts the value there among the items.
pub(crate) fn put_at<T: Drop>(items: &mut Vec<T>, place: usize, value: T)
    requires { place < length items.old.items }
    ensures { items.new.items ≡ set items.old.items place value }
{
    items[place] = value;
}

// Puts the value there among the items, where there is a value.
pub(crate) fn put_given_at<T: Drop>(items: &mut Vec<Option<T>>, place: usize, value: Option<T>)
    requires { place < length items.old.items }
    ensures { items.new.items
        ≡ option_map_or (λ v. set items.old.items place (Some v)) value items.old.items }
{
    if value.is_some() {
        items[place] = value;
    }
}
