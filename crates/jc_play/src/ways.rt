//! What comes round the own event of a command in a play.

ghost use Rattle.std.specs.Prelude.{◌≡◌};
ghost use Rattle.jc_play.specs.Ways.{way_of};

use jc_types::Action1;

/// What comes round the own event of a command.
#[derive(Clone, Copy)]
pub(crate) enum Way {
    /// The caches are brought on before, and steps follow.
    Round { controller: u32, worker: u32 },
    /// All settles before.
    Rest,
    /// Nothing.
    Plain,
}

// The way of a command.
pub(crate) fn way_of(action: &Action1) -> Way
    ensures { result ≡ way_of action.now }
{
    match action {
        Action1::Sync { controller, worker } => Way::Round {
            controller: *controller,
            worker: *worker,
        },
        Action1::Settle => Way::Rest,
        _ => Way::Plain,
    }
}
