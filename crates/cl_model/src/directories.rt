//! Where the content of each loader lies.

ghost use Rattle.std.specs.Prelude.{◌≡◌, ℕ, List, map, string_bytes, IfOk};

use std::alloc::{AllocError, Global};

/// Names a directory for each loader: all that a source over directories wants to know of a configuration (JVMS SE 8, 5.3.2).
pub trait Directories {
    /// The texts of the directories, in the order of the loaders.
    ghost texts: { Self → List (List ℕ) };

    /// Copies of the texts. Only memory refuses it.
    fn directories(&self, alloc: Global) -> Result<Vec<String>, AllocError>
        ensures { IfOk result (λ v. map string_bytes v.items ≡ texts self.now) };
}
