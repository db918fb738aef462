//! The containers that were made last. Pods of one template share theirs, and so do pods that end alike: most pods
//! are made, and reported of, as the pod before.
ghost use Rattle.std.specs.Prelude.{◌≡◌, [], IfOk, IsTrue, OnOk, map};
ghost use Rattle.jc_log.specs.Requests.{changed_container, new_containers};

use super::new_objects::new_containers;
use super::reports::changed_containers;
use jc_types::{ContainerChanges, Containers, Copied, Names, Same, Template, Want};
use std::alloc::Global;
use std::marker::Model;

// The containers of a new pod, beside the names that they were made of. A contract sees the containers.
#[derive(Drop)]
pub(super) struct NewContainers {
    names: Names,
    inits: Names,
    made: Containers,
}

impl Model for NewContainers {
    ghost use Rattle.std.specs.Prelude.{◌≡◌, ◌++◌, List, false, map, true};
    ghost use Rattle.jc_types.specs.declared.objects.Container.{Container};
    ghost use Rattle.jc_log.specs.Requests.{new_container};

    ghost Value = { List Container };

    ghost view = { λ c. c.made };

    ghost invariant = { λ c. c.made ≡ map (new_container false) c.names ++ map (new_container true) c.inits };
}

impl NewContainers {
    // None yet. It takes no memory.
    pub(super) fn new(alloc: Global) -> Self
        ensures { result ≡ [] }
    {
        NewContainers {
            names: Names::new(alloc),
            inits: Names::new(alloc),
            made: Containers::new(alloc),
        }
    }

    // Whether they were made of this template.
    fn is_of(&self, template: &Template) -> bool
        ensures { IsTrue result → self.now ≡ new_containers template.now }
    {
        self.names.is_same(&template.containers) && self.inits.is_same(&template.inits)
    }

    // Makes them anew, of this template.
    fn renew(&mut self, alloc: Global, template: &Template) -> Result<(), Want>
        ensures { OnOk result (self.new ≡ new_containers template.now) }
    {
        let made = new_containers(alloc, template)?;
        let names = template.containers.copy()?;
        let inits = template.inits.copy()?;
        self.names = names;
        self.inits = inits;
        self.made = made;
        Ok(())
    }

    // The containers of a new pod of this template.
    pub(super) fn of(&mut self, alloc: Global, template: &Template) -> Result<Containers, Want>
        ensures { IfOk result (λ r. r ≡ new_containers template.now) }
    {
        if self.is_of(template) {
            return self.made.copy();
        }
        self.renew(alloc, template)?;
        self.made.copy()
    }
}

// Containers after a report, beside those before it and what it said. A contract sees those after it.
#[derive(Drop)]
pub(super) struct ReportedContainers {
    before: Containers,
    changes: ContainerChanges,
    after: Containers,
}

impl Model for ReportedContainers {
    ghost use Rattle.std.specs.Prelude.{◌≡◌, List, map};
    ghost use Rattle.jc_types.specs.declared.objects.Container.{Container};
    ghost use Rattle.jc_log.specs.Requests.{changed_container};

    ghost Value = { List Container };

    ghost view = { λ c. c.after };

    ghost invariant = { λ c. c.after ≡ map (changed_container c.changes) c.before };
}

impl ReportedContainers {
    // None yet. It takes no memory.
    pub(super) fn new(alloc: Global) -> Self
        ensures { result ≡ [] }
    {
        ReportedContainers {
            before: Containers::new(alloc),
            changes: ContainerChanges::new(alloc),
            after: Containers::new(alloc),
        }
    }

    // Whether these containers were changed so.
    fn is_of(&self, containers: &Containers, changes: &ContainerChanges) -> bool
        ensures { IsTrue result → self.now ≡ map (changed_container changes.now) containers.now }
    {
        self.before.is_same(containers) && self.changes.is_same(changes)
    }

    // Changes these containers so.
    fn renew(
        &mut self,
        alloc: Global,
        containers: &Containers,
        changes: &ContainerChanges,
    ) -> Result<(), Want>
        ensures { OnOk result (self.new ≡ map (changed_container changes.now) containers.now) }
    {
        let after = changed_containers(alloc, containers.as_slice(), changes.as_slice())?;
        let before = containers.copy()?;
        let said = changes.copy()?;
        self.before = before;
        self.changes = said;
        self.after = after;
        Ok(())
    }

    // The containers as the report says.
    pub(super) fn of(
        &mut self,
        alloc: Global,
        containers: &Containers,
        changes: &ContainerChanges,
    ) -> Result<Containers, Want>
        ensures { IfOk result (λ r. r ≡ map (changed_container changes.now) containers.now) }
    {
        if self.is_of(containers, changes) {
            return self.after.copy();
        }
        self.renew(alloc, containers, changes)?;
        self.after.copy()
    }
}
