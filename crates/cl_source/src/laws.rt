//! Laws of sources, each the contract of a function that does nothing.
ghost use Rattle.std.specs.Prelude.{◌≡◌, ℕ, List, Some};
ghost use Rattle.cl_names.specs.Kind.{IsClass, IsNameOf};
ghost use Rattle.cl_source.specs.declared.size.TheConstants.{MOST_CLASS_BYTES};
ghost use Rattle.cl_source.specs.Directories.{StaysWithin, file_path};

/// The path of a class's name leads out of no directory: behind the directory's own path none of its parts is empty, `.` or
/// `..`.
pub fn class_names_stay_within()
    ensures { (dir name path : List ℕ) → IsNameOf IsClass name → file_path dir name ≡ Some path
        → StaysWithin dir path }
{}

/// The limit of a class file's bytes in numbers: definitions and code speak of it by name.
pub fn limits()
    ensures { MOST_CLASS_BYTES ≡ 16777216 }
{}
