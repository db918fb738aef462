//! The players of a threaded run, one in each thread.

ghost use Rattle.std.specs.Prelude.{◌≡◌, ◌<◌};

/// What a thread of a run keeps of itself. Lane L belongs to the player of number L mod `threads`.
#[derive(Clone, Copy)]
pub struct Player {
    /// Its seat.
    pub number: u32,
    /// How many players there are.
    pub threads: u32,
    /// Whether a command of its lanes is tried next before what the system can do of itself.
    pub tries_lanes: bool,
    /// Whether none of its lanes' next commands could come when they were last tried: each waits until
    /// the system has nothing left to do, so none is tried before that.
    pub lanes_wait: bool,
    /// Whether there was no memory for what it was to do. It has ended then.
    pub is_out_of_memory: bool,
    ghost within: { number < threads },
}

impl Player {
    /// The player of the number, before its first turn.
    pub fn new(number: u32, threads: u32) -> Player
        requires { number < threads }
        ensures number { result.number ≡ number }
        ensures threads { result.threads ≡ threads }
    {
        Player {
            number,
            threads,
            tries_lanes: true,
            lanes_wait: false,
            is_out_of_memory: false,
        }
    }
}
