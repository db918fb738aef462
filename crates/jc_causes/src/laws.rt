//! A law on the requests of syncs. The function is empty: what it ensures holds of every history, and its callers may
//! cite it.

ghost use Rattle.std.specs.Prelude.{List};
ghost use Rattle.jc_types.specs.declared.runs.Shape.{Shape};
ghost use Rattle.jc_log.specs.Deeds.{Deed};
ghost use Rattle.jc_history.specs.Legal.{IsLegal};
ghost use Rattle.jc_causes.specs.Causes.{AreCaused};

/// **No pod is made, stopped or let go without a cause (batch/v1)**: in each legal history each request of a sync
/// follows from what the sync saw. A pod is made where its Job neither ends nor is suspended, wants more than it has,
/// no delay holds it back, and the pod's index is free. A pod is marked where its Job ends, where it has no finalizer,
/// or where it may be let go. It is let go where its Job is suspended, where it is one too many, of its index or at
/// all, or where its index is completed, has failed or is past the completions. It is released where it is counted or
/// needs no count, or where its Job is gone. A status is written where it changes something.
pub fn requests_have_causes()
    ensures { (shape : Shape) (deeds : List Deed) → IsLegal shape deeds → AreCaused shape deeds }
{}
