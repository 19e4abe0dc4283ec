//! Whether a class fits as a supertype.

ghost use Rattle.std.specs.Prelude.{◌≡◌};
ghost use Rattle.std.specs.Option.{option_map};
ghost use Rattle.cl_classfile.specs.Files.{file_of};
ghost use Rattle.cl_model.specs.Classes.{is_fit, misfit};
ghost use Rattle.cl_model.specs.Views.{error_of};
ghost use Rattle.cl_hierarchy.specs.Supertypes.{role_of};

use crate::access::is_accessible;
use crate::supertype::Role;
use cl_classfile::ClassFile;
use cl_model::{Class, ErrorKind};

/// What is wrong with a class of this file as a supertype of another class, if anything is: access comes before kind
/// (JVMS SE 8, 5.3.5, steps 3 and 4, and 5.4.4).
pub fn misfit(class: &Class, role: Role, above: &Class, file: &ClassFile) -> Option<ErrorKind>
    ensures { option_map (λ kind. error_of kind above.now) result ≡ misfit class.now (role_of role)
        above.now (file_of file.now) }
{
    if !is_accessible(file, above, class) {
        return Some(ErrorKind::IllegalAccessError);
    }
    if !is_fit(role, file) {
        return Some(ErrorKind::IncompatibleClassChangeError);
    }
    None
}

/// Whether a file is of the kind that is wanted (JVMS SE 8, 5.3.5, steps 3 and 4).
fn is_fit(role: Role, file: &ClassFile) -> bool
    ensures { result ≡ is_fit (role_of role) (file_of file.now) }
{
    match role {
        Role::Superclass => !file.is_interface(),
        Role::Superinterface => file.is_interface(),
    }
}
