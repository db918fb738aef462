//! The script and the shape of a run, as the types of what its seats share name them.

use std::marker::Brand;

/// Whose cluster it is: a script and a shape, which contracts alone see. Each run picks its own.
pub trait Naming {
    ghost use Rattle.jc_types.specs.declared.actions.Script.{Script};
    ghost use Rattle.jc_types.specs.declared.runs.Shape.{Shape};

    ghost script: { Script };

    ghost shape: { Shape };
}

impl Naming for Brand {
    ghost use Rattle.jc_seats.specs.Names.{no_script, no_shape};

    ghost script = { no_script };

    ghost shape = { no_shape };
}

/// Which log the seats mark, which contracts alone see. Each run picks its own.
pub trait LogTag {
    ghost use Rattle.atomic_table.specs.Seated.{TableId};

    ghost log: { TableId };
}

impl LogTag for Brand {
    ghost use Rattle.jc_seats.specs.Names.{no_log};

    ghost log = { no_log };
}
