ghost use Rattle.std.specs.Prelude.{◌≡◌, ℕ, List, [], IfOk, string_bytes};
ghost use Rattle.jc_json.specs.Place.{path_to, path_at};

use crate::trail::Trail;
use std::alloc::{AllocError, Global};
use std::marker::Model;

/// Where a value stands in a JSON document, as `job.spec.containers[0].name`: the names of members
/// are joined by `.`, and a place in a list is `[i]`, from 0. The document itself has the empty path.
#[derive(Debug, Drop)]
pub struct Path {
    text: String,
}

impl Model for Path {
    ghost Value = { List ℕ };

    ghost view = { λ path. string_bytes path.text };
}

impl Path {
    /// The path of a whole document. It takes no memory.
    pub fn new(alloc: Global) -> Path
        ensures { result ≡ [] }
    {
        Path {
            text: String::new(alloc),
        }
    }

    // The path of the member of that name of the object there, in the memory of `alloc`.
    pub(crate) fn of_member(alloc: Global, object: &Trail, name: &str) -> Result<Path, AllocError>
        ensures { IfOk result (λ path. path ≡ path_to object.now name.now) }
    {
        object.path_in(alloc)?.member(name)
    }

    // The path of the member of that name.
    #[tactic(auto, unfolding(crate::specs::Place::path_to))]
    pub(crate) fn member(&self, name: &str) -> Result<Path, AllocError>
        ensures { IfOk result (λ path. path ≡ path_to self.now name.now) }
    {
        let alloc = *self.text.allocator();
        let front = self.as_str();
        let text = if front.is_empty() {
            String::from_str(alloc, name)?
        } else {
            format!(in alloc; "{front}.{name}")?
        };
        Ok(Path { text })
    }

    // The path of the item at that place, counted from 0.
    #[tactic(auto, unfolding(crate::specs::Place::path_at))]
    pub(crate) fn item(&self, index: usize) -> Result<Path, AllocError>
        ensures { IfOk result (λ path. path ≡ path_at self.now index) }
    {
        let front = self.as_str();
        let text = format!(in *self.text.allocator(); "{front}[{index}]")?;
        Ok(Path { text })
    }

    /// The path as text.
    pub fn as_str(&self) -> &str
        ensures { result.now ≡ self.now }
    {
        self.text.as_str()
    }

    /// An equal path, in memory of its own.
    pub fn copy(&self) -> Result<Path, AllocError>
        ensures { IfOk result (λ path. path ≡ self.now) }
    {
        let text = self.text.clone()?;
        Ok(Path { text })
    }
}
