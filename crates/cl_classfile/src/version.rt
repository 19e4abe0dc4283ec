//! The version of a class file.

ghost use Rattle.std.specs.Prelude.{◌≡◌};
ghost use Rattle.cl_classfile.specs.Checking.{checked_version};
ghost use Rattle.cl_classfile.specs.Versions.{is_supported};
ghost use Rattle.cl_names.specs.Steps.{Finds};

use crate::fault::Fault;

/// The version of a class file (JVMS SE 8, 4.1).
#[derive(Clone, Copy, Debug, PartialEq, Eq)]
pub struct Version {
    pub major: u16,
    pub minor: u16,
}

/// Whose members are judged: whether an interface's, and by the rules of which major version.
#[derive(Clone, Copy)]
pub struct Owner {
    pub of_interface: bool,
    pub major: u16,
}

/// Whether Java SE 8 has the version: 45.0 to 52.0, below 52 with every minor number (JVMS SE 8, 4.1).
pub fn is_supported(version: Version) -> bool
    ensures { result ≡ is_supported version }
{
    45 <= version.major && version.major <= 51 || version.major == 52 && version.minor == 0
}

/// Whether the version is one that is read.
pub fn check_version(version: Version) -> Result<(), Fault>
    ensures { Finds (λ u. u) result (checked_version version) }
{
    if is_supported(version) {
        return Ok(());
    }
    Err(Fault::Version)
}
