//! Laws on queues and delays. Each function is empty: what it ensures holds of every queue, and its callers
//! may cite it.

ghost use Rattle.std.specs.Prelude.{◌≡◌, ◌∷◌, ◌+◌, [], ℕ, List, None, Some, false, length, true};
ghost use Rattle.std.specs.List.{AllByRecursion as Each};
ghost use Rattle.std.specs.List.Sorted.{IsPermutation};
ghost use Rattle.jc_types.specs.declared.objects.KeyNames.{KeyNames as Key};
ghost use Rattle.jc_queue.specs.Delayed.{Delayed, HasOneMoment, HaveSameMoments, IsInTurn, due_key, due_keys, first_of, in_turn, is_before, left_after, left_by};
ghost use Rattle.jc_queue.specs.Queued.{IsQueue, Queued, added, finished, got, has_key, retracted, sent_back};

/// Each call leaves a queue: no key stands twice, and just the dirty keys that are not processing are in
/// line.
pub fn calls_keep_a_queue()
    ensures added { (q : Queued) (k : Key) → IsQueue q → IsQueue (added q k) }
    ensures got { (q : Queued) → IsQueue q → IsQueue (got q) }
    ensures finished { (q : Queued) (k : Key) → IsQueue q → has_key k q.processing ≡ true →
        IsQueue (finished q k) }
    ensures sent_back { (q : Queued) → IsQueue q → IsQueue (sent_back q) }
    ensures retracted { (q : Queued) (k : Key) → IsQueue q → IsQueue (retracted q k) }
{}

/// A key that was not dirty, and is added and taken back, leaves the queue as it was.
pub fn what_was_added_is_taken_back()
    ensures { (q : Queued) (k : Key) → IsQueue q → has_key k q.dirty ≡ false →
        retracted (added q k) k ≡ q }
{}

/// The keys that are due are those that leave the delays one by one, each the one that is due first.
pub fn due_keys_leave_one_by_one()
    ensures last { (d : Delayed) (now : ℕ) → due_key d now ≡ None → due_keys d now ≡ [] }
    ensures rest { (d : Delayed) (now : ℕ) → due_key d now ≡ None → left_after d now ≡ d }
    ensures first { (d : Delayed) (now : ℕ) (k : Key) → HasOneMoment d → due_key d now ≡ Some k →
        due_keys d now ≡ k ∷ due_keys (left_by d (Some k)) now }
    ensures left { (d : Delayed) (now : ℕ) (k : Key) → HasOneMoment d → due_key d now ≡ Some k →
        left_after d now ≡ left_after (left_by d (Some k)) now }
    ensures fewer { (d : Delayed) (now : ℕ) (k : Key) → HasOneMoment d → due_key d now ≡ Some k →
        length (left_by d (Some k)).moments + 1 ≡ length d.moments }
    ensures once { (d : Delayed) (k : Key) → HasOneMoment d → HasOneMoment (left_by d (Some k)) }
{}

/// The row that is due first is a least one: none is due before it. The rows in turn are the rows, in
/// ascending order.
pub fn rows_are_due_in_turn()
    ensures least { (rows : List (Key × ℕ)) (f : Key × ℕ) → first_of rows ≡ Some f →
        Each (λ row. is_before row f ≡ false) rows }
    ensures sorted { (rows : List (Key × ℕ)) → IsInTurn (in_turn rows) }
    ensures same { (rows : List (Key × ℕ)) → IsPermutation rows (in_turn rows) }
{}

/// The moment of each key tells which keys are due, and in which order.
pub fn equal_moments_are_due_alike()
    ensures { (d e : Delayed) (now : ℕ) → HasOneMoment d → HasOneMoment e → HaveSameMoments d e →
        due_keys d now ≡ due_keys e now }
{}
