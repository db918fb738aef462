//! Laws on lists of UIDs, sets of indexes and bases. Each function is empty: what it ensures holds of all
//! lists, and its callers may cite it.

ghost use Rattle.std.specs.Prelude.{◌≡◌, ◌||◌, List, ℕ};
ghost use Rattle.jc_ranges.specs.Sets.{has};
ghost use Rattle.jc_types.specs.declared.numbers.Uid.{Uid};
ghost use Rattle.jc_types.specs.Equality.{IsExact};
ghost use Rattle.jc_states.specs.Bases.{same_basis};
ghost use Rattle.jc_states.specs.UidLists.{Ascends, is_in, join, merge};

/// Merges of UIDs and joins of indexes: what is in them, and that they keep the order.
pub fn lists_merge()
    ensures merged { (u : Uid) (uids more : List Uid)
        → is_in u (merge uids more) ≡ (is_in u uids || is_in u more) }
    ensures joined { (n : ℕ) (indexes more : List ℕ)
        → has n (join indexes more) ≡ (has n indexes || has n more) }
    ensures order { (uids more : List Uid) → Ascends uids → Ascends (merge uids more) }
{}

/// The test of equality of bases that computes is true just of equal ones.
pub fn bases_are_compared()
    ensures { IsExact same_basis }
{}
