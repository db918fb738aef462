//! Laws on what a sync asks. Each function is empty: what it ensures holds of every log, and its callers may
//! cite it.

ghost use Rattle.std.specs.Prelude.{◌≢◌, List, ℕ};
ghost use Rattle.jc_types.specs.declared.objects.Entry.{Entry};
ghost use Rattle.jc_types.specs.declared.replies.Answer.TheVariants.{Unavailable};
ghost use Rattle.jc_ledger.specs.declared.flights.Flight.{Flight};
ghost use Rattle.jc_asks.specs.declared.asks.Ask.{Ask};
ghost use Rattle.jc_asks.specs.Steps.{answered_to, as_answer};

/// The store answers each request of a sync: where no fault is pending, none stays without an answer.
pub fn requests_are_answered()
    ensures { (log : List Entry) (now : ℕ) (flight : Flight) (ask : Ask)
        → as_answer (answered_to log now flight ask).reply ≢ Unavailable }
{}
