//! Conditions that a pod gets.

ghost use Rattle.std.specs.Prelude.{◌≡◌, IfOk, IsSome, None, OnOk, map, option_to_list};
ghost use Rattle.jc_history.specs.Nodes.{true_pattern};
ghost use Rattle.jc_node.specs.Fated.{conditions_at_start};

use jc_types::{Copied, Pattern, PodConditions, Text, Truth, Want};
use std::alloc::Global;
use std::marker::Model;

// A condition of the kind that is true, where a kind is given.
pub(crate) fn true_conditions(alloc: Global, kind: Option<Text>) -> Result<PodConditions, Want>
    ensures { IfOk result (λ conditions. conditions ≡ map true_pattern (option_to_list kind)) }
{
    let mut conditions = PodConditions::new(alloc);
    if let Some(kind) = kind {
        conditions.push(Pattern {
            kind,
            truth: Truth::True,
        })?;
    }
    Ok(conditions)
}

// The conditions of a pod that starts: it is ready.
fn ready_conditions(alloc: Global) -> Result<PodConditions, Want>
    ensures { IfOk result (λ conditions. conditions ≡ conditions_at_start) }
{
    let ready = Text::from_str(alloc, "Ready")?;
    true_conditions(alloc, Some(ready))
}

/// The conditions of a pod that starts. All pods share them, once they are made.
#[derive(Drop)]
pub(crate) struct Ready {
    made: Option<PodConditions>,
}

impl Model for Ready {
    ghost use Rattle.std.specs.Prelude.{List, Option};
    ghost use Rattle.jc_types.specs.declared.policies.Pattern.{Pattern};
    ghost use Rattle.jc_node.specs.Fated.{AreAtStart};

    ghost Value = { Option (List Pattern) };

    ghost view = { λ r. r.made };

    ghost invariant = { λ r. AreAtStart r.made };
}

impl Copied for Ready {
    fn copy(&self) -> Result<Self, Want> {
        Ok(Ready {
            made: self.made.copy()?,
        })
    }
}

impl Ready {
    // None are made.
    pub(crate) fn new() -> Ready
        ensures { result ≡ None }
    {
        Ready { made: None }
    }

    // Makes them, where they are not made.
    pub(crate) fn make(&mut self, alloc: Global) -> Result<(), Want>
        ensures { OnOk result (IsSome self.new) }
    {
        if self.made.is_none() {
            self.made = Some(ready_conditions(alloc)?);
        }
        Ok(())
    }

    // The conditions, which are made anew where they were not made before.
    pub(crate) fn conditions(&self, alloc: Global) -> Result<PodConditions, Want>
        ensures { IfOk result (λ conditions. conditions ≡ conditions_at_start) }
    {
        match &self.made {
            Some(made) => made.copy(),
            None => ready_conditions(alloc),
        }
    }
}
