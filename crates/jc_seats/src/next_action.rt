//! What a player does next.

/// What a player has to do next, whose plans are made of a `P`.
#[derive(Drop)]
pub enum NextAction<P> {
    /// To make a plan, and hand it in.
    Plan(P),
    /// To take another turn: something has happened.
    Went,
    /// To wait: it has nothing to do while another player is at its plan.
    Wait,
    /// To end: it has nothing left to do.
    End,
}
