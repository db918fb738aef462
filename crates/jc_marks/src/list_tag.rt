//! Which list a call shows a log.

use std::marker::Brand;

/// Which list it is, which contracts alone see. Each call picks its own.
pub trait ListTag {
    ghost use Rattle.std.specs.Prelude.{List};
    ghost use Rattle.jc_types.specs.declared.runs.Past.{Past};

    ghost list: { List Past };
}

impl ListTag for Brand {
    ghost use Rattle.std.specs.Prelude.{[]};

    ghost list = { [] };
}
