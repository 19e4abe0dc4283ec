//! Run-time packages, and which classes are accessible to which (JVMS SE 8, 5.3, 5.4.4).

ghost use Rattle.std.specs.Prelude.{◌≡◌};
ghost use Rattle.cl_classfile.specs.Files.{file_of};
ghost use Rattle.cl_model.specs.Classes.{class_accessible, same_class, same_package};
ghost use Rattle.cl_hierarchy.specs.Rows.{row_accessible};

use crate::row::ClassRow;
use cl_classfile::ClassFile;
use cl_model::{Class, Told};

/// Whether two classes are of one run-time package: of packages of one name, and of one defining loader
/// (JVMS SE 8, 5.3). Takes no memory.
pub fn same_package(one: &Class, other: &Class) -> bool
    ensures { result ≡ same_package one.now other.now }
{
    one.loader == other.loader && one.name.package() == other.name.package()
}

/// Whether they are the same class (JVMS SE 8, 5.3).
pub(crate) fn is_same(one: &Class, other: &Class) -> bool
    ensures { result ≡ same_class one.now other.now }
{
    one == other
}

/// Whether a class of this file is accessible to another (JVMS SE 8, 5.4.4).
pub(crate) fn is_accessible(file: &ClassFile, class: &Class, from: &Class) -> bool
    ensures { result ≡ class_accessible (file_of file.now).flags class.now from.now }
{
    file.is_public() || same_package(class, from)
}

/// Whether a class is accessible to another: it is public, or of the other's run-time package (JVMS SE 8, 5.4.4).
/// Takes no memory.
pub fn class_accessible<T: Told>(row: &ClassRow<T>, from: &Class) -> bool
    ensures { result ≡ row_accessible row.now from.now }
{
    is_accessible(row.file(), row.class(), from)
}
