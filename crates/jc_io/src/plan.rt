// The plan of a source or sink in memory: which of its calls fail, and how many did.
ghost use Rattle.std.specs.Prelude.{◌≡◌, ◌≤◌, ◌||◌, not, is_err};
ghost use Rattle.jc_io.specs.Faults.{HasCause};
ghost use Rattle.jc_io.specs.Plan.{after_call, fails_next, new_plan};

use super::Failed;

#[derive(Drop)]
pub(crate) struct Plan {
    pub(crate) fails: Vec<u64>,
    pub(crate) calls: u64,
    pub(crate) faults: u64,
}

impl Plan {
    pub(crate) fn new(fails: Vec<u64>) -> Plan
        ensures { result ≡ new_plan fails }
    {
        Plan {
            fails,
            calls: 0,
            faults: 0,
        }
    }

    // Counts a call, which fails where it is planned to or where it can't be served.
    pub(crate) fn call(&mut self, served: bool) -> Result<(), Failed>
        ensures refused { is_err result ≡ (fails_next self.old || not served) }
        ensures counted { self.new ≡ after_call self.old (is_err result) }
        ensures cause { HasCause self.old.faults self.new.faults result }
        ensures never_falls { self.old.faults ≤ self.new.faults }
    {
        self.calls = self.calls.saturating_add(1);
        if served && !self.fails.contains(&self.calls) {
            return Ok(());
        }
        self.faults = self.faults.saturating_add(1);
        Err(Failed)
    }
}
