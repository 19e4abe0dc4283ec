//! The tables of flags; a bit that a table does not name may be set (JVMS SE 8, 4.1, 4.5, 4.6).

ghost use Rattle.std.specs.Prelude.{◌≡◌, ◌<◌};
ghost use Rattle.cl_classfile.specs.Flags.{has, public, static, interface, is_interface_flags, is_plain_flags, is_class_flags, has_one_access, is_constant_flags, is_field_flags, may_be_abstract, may_be_of_interface, is_method_flags, is_init_flags};

use crate::version::Owner;

/// What has it may be used from outside its package (JVMS SE 8, tables 4.1-A, 4.5-A and 4.6-A).
pub const PUBLIC: u16 = 0x0001;

/// What has it is used in its own class alone (JVMS SE 8, tables 4.5-A and 4.6-A).
pub const PRIVATE: u16 = 0x0002;

/// What has it may be used in subclasses (JVMS SE 8, tables 4.5-A and 4.6-A).
pub const PROTECTED: u16 = 0x0004;

/// What has it is of the class, and of no instance (JVMS SE 8, tables 4.5-A and 4.6-A).
pub const STATIC: u16 = 0x0008;

const FINAL: u16 = 0x0010;

const SUPER: u16 = 0x0020;

const SYNCHRONIZED: u16 = 0x0020;

const VOLATILE: u16 = 0x0040;

const BRIDGE: u16 = 0x0040;

const TRANSIENT: u16 = 0x0080;

const NATIVE: u16 = 0x0100;

const INTERFACE: u16 = 0x0200;

/// What has it is not instantiated, or has no body (JVMS SE 8, tables 4.1-A and 4.6-A).
pub const ABSTRACT: u16 = 0x0400;

const STRICT: u16 = 0x0800;

const ANNOTATION: u16 = 0x2000;

const ENUM: u16 = 0x4000;

/// Whether flags have this bit (JVMS SE 8, tables 4.1-A, 4.5-A and 4.6-A).
pub fn has_flag(flags: u16, bit: u16) -> bool
    requires { 0 < bit }
    ensures { result ≡ has flags bit }
{
    flags / bit % 2 == 1
}

/// Whether these are the flags of what is public.
pub fn is_public(flags: u16) -> bool
    ensures { result ≡ has flags public }
{
    has_flag(flags, PUBLIC)
}

/// Whether these are the flags of an interface.
pub fn is_interface(flags: u16) -> bool
    ensures { result ≡ has flags interface }
{
    has_flag(flags, INTERFACE)
}

fn is_interface_flags(major: u16, flags: u16) -> bool
    ensures { result ≡ is_interface_flags major flags }
{
    (major < 50 || has_flag(flags, ABSTRACT))
        && !has_flag(flags, FINAL)
        && (major < 49 || !has_flag(flags, SUPER))
        && !has_flag(flags, ENUM)
}

fn is_plain_flags(flags: u16) -> bool
    ensures { result ≡ is_plain_flags flags }
{
    !has_flag(flags, ANNOTATION) && !(has_flag(flags, FINAL) && has_flag(flags, ABSTRACT))
}

/// Whether the flags of a class keep their table (JVMS SE 8, 4.1).
pub fn is_class_flags(major: u16, flags: u16) -> bool
    ensures { result ≡ is_class_flags major flags }
{
    if is_interface(flags) {
        is_interface_flags(major, flags)
    } else {
        is_plain_flags(flags)
    }
}

pub fn is_static(flags: u16) -> bool
    ensures { result ≡ has flags static }
{
    has_flag(flags, STATIC)
}

/// At most one of public, private and protected.
fn has_one_access(flags: u16) -> bool
    ensures { result ≡ has_one_access flags }
{
    !(has_flag(flags, PUBLIC) && has_flag(flags, PRIVATE))
        && !(has_flag(flags, PUBLIC) && has_flag(flags, PROTECTED))
        && !(has_flag(flags, PRIVATE) && has_flag(flags, PROTECTED))
}

fn is_constant_flags(flags: u16) -> bool
    ensures { result ≡ is_constant_flags flags }
{
    has_flag(flags, PUBLIC)
        && has_flag(flags, STATIC)
        && has_flag(flags, FINAL)
        && !(has_flag(flags, PRIVATE)
            || has_flag(flags, PROTECTED)
            || has_flag(flags, VOLATILE)
            || has_flag(flags, TRANSIENT)
            || has_flag(flags, ENUM))
}

/// Whether the flags of a field, of an interface or another class, keep their table (JVMS SE 8, 4.5).
pub fn is_field_flags(of_interface: bool, flags: u16) -> bool
    ensures { result ≡ is_field_flags of_interface flags }
{
    if of_interface {
        is_constant_flags(flags)
    } else {
        has_one_access(flags) && !(has_flag(flags, FINAL) && has_flag(flags, VOLATILE))
    }
}

fn may_be_abstract(major: u16, flags: u16) -> bool
    ensures { result ≡ may_be_abstract major flags }
{
    !(has_flag(flags, PRIVATE)
        || has_flag(flags, STATIC)
        || has_flag(flags, FINAL)
        || has_flag(flags, NATIVE))
        && (major < 49 || !(has_flag(flags, SYNCHRONIZED) || has_flag(flags, STRICT)))
}

fn may_be_of_interface(major: u16, flags: u16) -> bool
    ensures { result ≡ may_be_of_interface major flags }
{
    let has_access = if major < 52 {
        has_flag(flags, PUBLIC) && has_flag(flags, ABSTRACT)
    } else {
        has_flag(flags, PUBLIC) || has_flag(flags, PRIVATE)
    };
    has_access
        && !(has_flag(flags, PROTECTED)
            || has_flag(flags, FINAL)
            || has_flag(flags, SYNCHRONIZED)
            || has_flag(flags, NATIVE))
}

/// Whether the flags of a method that is neither `<init>` nor `<clinit>` keep their table (JVMS SE 8, 4.6).
pub fn is_method_flags(owner: Owner, flags: u16) -> bool
    ensures { result ≡ is_method_flags owner flags }
{
    has_one_access(flags)
        && (!has_flag(flags, ABSTRACT) || may_be_abstract(owner.major, flags))
        && (!owner.of_interface || may_be_of_interface(owner.major, flags))
}

/// What else is asked of the flags of `<init>` (JVMS SE 8, 4.6).
pub fn is_init_flags(flags: u16) -> bool
    ensures { result ≡ is_init_flags flags }
{
    !(has_flag(flags, STATIC)
        || has_flag(flags, FINAL)
        || has_flag(flags, SYNCHRONIZED)
        || has_flag(flags, BRIDGE)
        || has_flag(flags, NATIVE)
        || has_flag(flags, ABSTRACT))
}
