//! When the containers of a Job's pods were restarted too often.

ghost use Rattle.std.specs.Prelude.{◌≡◌};
ghost use Rattle.jc_finish.specs.Decisions.{restarts_too_often};

/// Whether so many restarts are too many under the limit: as many as the limit are, but under the limit
/// 0 the first is.
pub fn restarts_too_often(limit: u32, restarts: u128) -> bool
    ensures { result ≡ restarts_too_often limit restarts }
{
    if limit == 0 {
        0 < restarts
    } else {
        u128::from(limit) <= restarts
    }
}
