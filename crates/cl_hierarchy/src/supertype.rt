//! The direct supertypes of a class file.

ghost use Rattle.std.specs.Prelude.{◌≡◌, ◌≤◌, length, slice_get};
ghost use Rattle.std.specs.Option.{option_map};
ghost use Rattle.cl_classfile.specs.Files.{file_of};
ghost use Rattle.cl_model.specs.Classes.{superinterfaces_of, supers};
ghost use Rattle.cl_hierarchy.specs.Supertypes.{plain_supertype};

use cl_classfile::ClassFile;
use cl_names::Name;

/// What a class wants a supertype for.
#[derive(Clone, Copy, Debug, PartialEq, Eq)]
pub enum Role {
    Superclass,
    Superinterface,
}

/// A direct supertype, as a class file names it.
#[derive(Clone, Copy, Debug)]
pub struct Supertype<'a> {
    pub name: &'a Name,
    pub role: Role,
}

/// The direct supertype at a place, counted from 0: the superclass, where there is one, and then the superinterfaces in
/// order (JVMS SE 8, 5.3.5, steps 3 and 4).
pub(crate) fn supertype_of(file: &ClassFile, place: usize) -> Option<Supertype<'_>>
    ensures { option_map plain_supertype result ≡ slice_get (supers (file_of file.now)) place }
{
    match file.super_name() {
        Some(name) if place == 0 => Some(Supertype {
            name,
            role: Role::Superclass,
        }),
        Some(_) => superinterface_of(file, place - 1),
        None => superinterface_of(file, place),
    }
}

/// The direct superinterface at a place, counted from 0.
fn superinterface_of(file: &ClassFile, place: usize) -> Option<Supertype<'_>>
    ensures { option_map plain_supertype result ≡ slice_get (superinterfaces_of (file_of file.now))
        place }
{
    let name = file.interface_name(place)?;
    Some(Supertype {
        name,
        role: Role::Superinterface,
    })
}

/// The place of a direct supertype of the same name and role as the one at a place, which comes first or is that one.
pub(crate) fn first_of_name(file: &ClassFile, place: usize) -> usize
    ensures before { result ≤ place }
    ensures same { slice_get (supers (file_of file.now)) result
        ≡ slice_get (supers (file_of file.now)) place }
{
    match file.super_name() {
        None => file.first_of_name(place),
        Some(_) => {
            if place == 0 {
                return 0;
            }
            file.first_of_name(place - 1) + 1
        }
    }
}

/// How many direct supertypes a class file names.
pub(crate) fn supertypes_of(file: &ClassFile) -> usize
    ensures { result ≡ length (supers (file_of file.now)) }
{
    // brings that each interface is a class
    let _ = file.pool();
    let interfaces = file.interfaces().len();
    match file.super_name() {
        Some(_) => interfaces + 1,
        None => interfaces,
    }
}
