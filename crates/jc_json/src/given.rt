ghost use Rattle.std.specs.Prelude.{◌≡◌, ◌≤◌, IfOk};
ghost use Rattle.serde_json.specs.Data.{Data, depth};
ghost use Rattle.serde_json.specs.Read.{max_depth};
ghost use Rattle.serde_json.specs.View.{view};
ghost use Rattle.jc_json.specs.Given.{IsTextOf, is_written};

use serde_json::Value;
use std::alloc::{AllocError, Global};

/// Whether the value is written as `text`, where `text` is compact: without blanks, each object's
/// members in byte order, and no number that is a float.
#[tactic(auto, using(crate::proofs::Written::written_test))]
pub fn is_written(alloc: Global, value: &Value, text: &str) -> Result<bool, AllocError>
    requires { depth (view value.now) ≤ max_depth }
    ensures { IfOk result (λ same. (d : Data) → IsTextOf text.now d
        → same ≡ is_written text.now (view value.now)) }
{
    let written = value.to_string(alloc)?;
    Ok(written.as_str() == text)
}
