//! A law on the log of deeds. The function is empty: what it ensures holds of every list of deeds, legal or not, and its
//! callers may cite it.

ghost use Rattle.std.specs.Prelude.{◌≡◌, Bool, List, length, true};
ghost use Rattle.jc_types.specs.declared.objects.KeyNames.{KeyNames as Key};
ghost use Rattle.jc_types.specs.declared.runs.Shape.{Shape};
ghost use Rattle.jc_log.specs.Deeds.{Deed};
ghost use Rattle.jc_history.specs.Diaries.{moment};
ghost use Rattle.jc_history.specs.Replies.{log_given};
ghost use Rattle.jc_origins.specs.Origins.{AllCreateOf, LogHasOrigin};

/// Each Job of the log of deeds stands under a key that a deed gave it, and none of its conditions is younger than the
/// clock. Each pod has a number from 1 to that of the deeds, and there are at most as many entries as deeds.
pub fn logs_come_of_their_deeds()
    ensures { (test : Key → Bool) (shape : Shape) (deeds : List Deed)
        → AllCreateOf (λ key. test key ≡ true) deeds
        → LogHasOrigin (λ key. test key ≡ true) (moment shape deeds) (length deeds) (log_given shape deeds) }
{}
