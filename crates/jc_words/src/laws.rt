//! Laws on the words. The functions are empty: what they ensure holds of all words, and their callers may cite it.

ghost use Rattle.std.specs.Prelude.{◌≡◌, ℕ, List, [], ◌∷◌, Some, None, codes};
ghost use Rattle.jc_types.specs.declared.runs.Shape.{Shape};
ghost use Rattle.jc_words.specs.FitOrders.{IsFitOrder, IsFitShape};
ghost use Rattle.jc_words.specs.Words.{default_shape, order_of};
ghost use Rattle.jc_words.specs.declared.words.LockKind.TheVariants.{Mutex, Turn};
ghost use Rattle.jc_words.specs.declared.words.Order.{Order};
ghost use Rattle.jc_words.specs.declared.words.Order.TheVariants.{Run, Reap, Audit, Generate};

/// What the words ask for is within the bounds, and so is the shape where no option says another.
pub fn orders_fit()
    ensures orders { (words : List (List ℕ)) (order : Order) → order_of words ≡ Some order
        → IsFitOrder order }
    ensures default { IsFitShape default_shape }
{}

/// What some words ask for.
pub fn words_read()
    ensures nothing { order_of [] ≡ None }
    ensures run { order_of (codes "run" ∷ []) ≡ Some (Run 0 Mutex default_shape) }
    ensures no_threads { order_of (codes "run" ∷ codes "--threads" ∷ codes "0" ∷ [])
        ≡ Some (Run 0 Mutex default_shape) }
    ensures most_threads { order_of (codes "run" ∷ codes "--threads" ∷ codes "16" ∷ [])
        ≡ Some (Run 16 Mutex default_shape) }
    ensures too_many_threads { order_of (codes "run" ∷ codes "--threads" ∷ codes "17" ∷ []) ≡ None }
    ensures zero_in_front { order_of (codes "run" ∷ codes "--threads=01" ∷ []) ≡ None }
    ensures threads_twice { order_of (codes "run" ∷ codes "--threads" ∷ codes "1" ∷ codes "--threads" ∷ codes "1" ∷ [])
        ≡ None }
    ensures turn_lock { order_of (codes "run" ∷ codes "--lock" ∷ codes "turn" ∷ codes "--threads=2" ∷ [])
        ≡ Some (Run 2 Turn default_shape) }
    ensures mutex { order_of (codes "run" ∷ codes "--threads" ∷ codes "2" ∷ codes "--lock=mutex" ∷ [])
        ≡ Some (Run 2 Mutex default_shape) }
    ensures lock_of_one { order_of (codes "run" ∷ codes "--lock" ∷ codes "turn" ∷ [])
        ≡ Some (Run 0 Turn default_shape) }
    ensures other_lock { order_of (codes "run" ∷ codes "--lock" ∷ codes "fair" ∷ []) ≡ None }
    ensures lock_twice { order_of (codes "run" ∷ codes "--lock=turn" ∷ codes "--lock=turn" ∷ []) ≡ None }
    ensures joined { order_of (codes "run" ∷ codes "--workers=16" ∷ codes "--controllers" ∷ codes "4" ∷ [])
        ≡ Some (Run 0 Mutex (record {
          controllers = 4;
          workers = 16;
          window = default_shape.window;
          events = default_shape.events;
          start = default_shape.start;
        })) }
    ensures workers { order_of (codes "run" ∷ codes "--workers" ∷ codes "17" ∷ []) ≡ None }
    ensures no_events { order_of (codes "run" ∷ codes "--events" ∷ codes "0" ∷ []) ≡ None }
    ensures zeros { order_of (codes "run" ∷ codes "--events=007" ∷ []) ≡ None }
    ensures sign { order_of (codes "run" ∷ codes "--events" ∷ codes "+5" ∷ []) ≡ None }
    ensures twice { order_of (codes "run" ∷ codes "--events" ∷ codes "5" ∷ codes "--events" ∷ codes "5" ∷ [])
        ≡ None }
    ensures no_value { order_of (codes "run" ∷ codes "--events" ∷ []) ≡ None }
    ensures other_option { order_of (codes "run" ∷ codes "--verbose=1" ∷ []) ≡ None }
    ensures reap { order_of (codes "reap" ∷ []) ≡ Some (Reap default_shape) }
    ensures reap_workers { order_of (codes "reap" ∷ codes "--workers=16" ∷ codes "--controllers" ∷ codes "4" ∷ [])
        ≡ Some (Reap (record {
          controllers = 4;
          workers = 16;
          window = default_shape.window;
          events = default_shape.events;
          start = default_shape.start;
        })) }
    ensures reap_threads { order_of (codes "reap" ∷ codes "--threads" ∷ codes "1" ∷ []) ≡ None }
    ensures reap_no_threads { order_of (codes "reap" ∷ codes "--threads=0" ∷ []) ≡ None }
    ensures reap_lock { order_of (codes "reap" ∷ codes "--lock=mutex" ∷ []) ≡ None }
    ensures reap_events { order_of (codes "reap" ∷ codes "--events=0" ∷ []) ≡ None }
    ensures audit { order_of (codes "audit" ∷ []) ≡ Some (Audit default_shape) }
    ensures audit_events { order_of (codes "audit" ∷ codes "--events" ∷ codes "1000" ∷ [])
        ≡ Some (Audit (record {
          controllers = default_shape.controllers;
          workers = default_shape.workers;
          window = default_shape.window;
          events = 1000;
          start = default_shape.start;
        })) }
    ensures audit_threads { order_of (codes "audit" ∷ codes "--threads" ∷ codes "0" ∷ []) ≡ None }
    ensures audit_lock { order_of (codes "audit" ∷ codes "--lock" ∷ codes "turn" ∷ []) ≡ None }
    ensures help { order_of (codes "--help" ∷ []) ≡ None }
    ensures generate { order_of (codes "generate" ∷ codes "7" ∷ codes "100" ∷ codes "20" ∷ [])
        ≡ Some (Generate 7 100 20) }
    ensures jobs { order_of (codes "generate" ∷ codes "7" ∷ codes "101" ∷ codes "20" ∷ []) ≡ None }
    ensures five_words { order_of (codes "generate" ∷ codes "7" ∷ codes "100" ∷ codes "20" ∷ codes "1" ∷ [])
        ≡ None }
{}
