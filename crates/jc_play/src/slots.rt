//! Registers, as the seats of a threaded run see them.

ghost use Rattle.std.specs.Prelude.{◌≡◌};
ghost use Rattle.jc_play.specs.Slots.{is_slot_of};

/// A worker's register, as the seats of a threaded run see it.
#[derive(Clone, Copy)]
pub struct Slot {
    pub controller: u32,
    pub worker: u32,
    /// The seat that holds the register, while it makes the plan of its sync.
    pub holder: Option<u32>,
    /// Whether a plan is wanted: since the sync of the register began it has neither stepped nor
    /// been given a plan.
    pub wants: bool,
}

impl Slot {
    /// Whether it is the register of the controller's worker.
    pub fn is_slot_of(&self, controller: u32, worker: u32) -> bool
        ensures { result ≡ is_slot_of controller worker self.now }
    {
        self.controller == controller && self.worker == worker
    }
}
