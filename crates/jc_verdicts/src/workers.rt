//! The workers, and with what their last syncs began. A run has few workers: so for those of low
//! numbers it stands in a list under their place, and only that of others in a map.

ghost use Rattle.std.specs.Prelude.{◌≡◌, vec_len};

use indexmap::IndexMap;
use jc_types::{Key, Version};

/// A worker of a controller.
#[derive(Clone, Copy, PartialEq, Eq, Hash)]
pub struct Worker {
    pub controller: u32,
    pub worker: u32,
}

/// With what a sync began: its key, as the event has it, and the numbers of the two caches.
#[derive(Clone, Copy)]
pub struct Start<'a> {
    pub key: &'a Key,
    pub jobs_at: Version,
    pub pods_at: Version,
}

/// With what the last sync of each worker began, if one did.
#[derive(Drop)]
pub struct Starts<'a> {
    /// Of the first 16 workers of each of the first four controllers.
    pub near: Vec<Option<Start<'a>>>,
    pub far: IndexMap<Worker, Start<'a>>,
    ghost size: { vec_len near ≡ 64 },
}
