//! Worked examples of the rules that a version changes, computed from the definitions.
ghost use Rattle.std.specs.Prelude.{◌≡◌, true, false, [], ◌∷◌, Err};
ghost use Rattle.cl_classfile.specs.Versions.{is_supported, version_spelling};
ghost use Rattle.cl_classfile.specs.Flags.{is_class_flags, is_method_flags};
ghost use Rattle.cl_classfile.specs.Pool.{may_name_interface_method};
ghost use Rattle.cl_classfile.specs.Checking.{parts_of};
ghost use Rattle.cl_classfile.specs.declared.fault.Fault.TheVariants as faults;
ghost use Rattle.cl_classfile.specs.Examples.{of_class, of_interface, with_bad_pool};

/// The versions that are read, and how one is spelled: the minor number first.
pub fn versions()
    ensures first { is_supported (record { major = 45; minor = 0 }) ≡ true }
    ensures any_minor { is_supported (record { major = 51; minor = 65535 }) ≡ true }
    ensures last { is_supported (record { major = 52; minor = 0 }) ≡ true }
    ensures before { is_supported (record { major = 44; minor = 65535 }) ≡ false }
    ensures past { is_supported (record { major = 52; minor = 1 }) ≡ false }
    ensures later { is_supported (record { major = 53; minor = 0 }) ≡ false }
    ensures spelled { version_spelling (record { major = 45; minor = 3 }) ≡ 0 ∷ 3 ∷ 0 ∷ 45 ∷ [] }
{}

/// Of parts whose version and whose pool are wrong the version is told.
#[tactic(auto, unfolding(crate::specs::Checking::parts_of, crate::specs::Checking::checked_pool, crate::specs::Checking::checked_slots))]
pub fn version_of_parts_first()
    ensures version { parts_of (with_bad_pool (record { major = 53; minor = 0 }))
        ≡ Err faults.Version }
    ensures pool { parts_of (with_bad_pool (record { major = 52; minor = 0 }))
        ≡ Err (faults.BadPool 1) }
{}

/// An interface without ABSTRACT, and one with SUPER; what no interface is in any version.
pub fn flags_of_interfaces()
    ensures concrete { is_class_flags 49 0x0200 ≡ true }
    ensures concrete_late { is_class_flags 50 0x0200 ≡ false }
    ensures with_super { is_class_flags 48 0x0620 ≡ true }
    ensures with_super_late { is_class_flags 49 0x0620 ≡ false }
    ensures with_final { is_class_flags 45 0x0610 ≡ false }
    ensures with_enum { is_class_flags 45 0x4600 ≡ false }
{}

/// A class's method that is abstract, and synchronized, strict or native.
pub fn flags_of_abstract_methods()
    ensures with_synchronized { is_method_flags (of_class 48) 0x0420 ≡ true }
    ensures with_synchronized_late { is_method_flags (of_class 49) 0x0420 ≡ false }
    ensures with_strict { is_method_flags (of_class 48) 0x0c00 ≡ true }
    ensures with_strict_late { is_method_flags (of_class 49) 0x0c00 ≡ false }
    ensures with_native { is_method_flags (of_class 45) 0x0500 ≡ false }
{}

/// An interface's method that is public and abstract, public alone, private alone, strict, synchronized.
pub fn flags_of_interface_methods()
    ensures public_abstract { is_method_flags (of_interface 45) 0x0401 ≡ true }
    ensures public_alone { is_method_flags (of_interface 51) 0x0001 ≡ false }
    ensures public_alone_late { is_method_flags (of_interface 52) 0x0001 ≡ true }
    ensures private_alone { is_method_flags (of_interface 51) 0x0002 ≡ false }
    ensures private_alone_late { is_method_flags (of_interface 52) 0x0002 ≡ true }
    ensures with_strict { is_method_flags (of_interface 48) 0x0c01 ≡ true }
    ensures with_strict_late { is_method_flags (of_interface 49) 0x0c01 ≡ false }
    ensures with_synchronized { is_method_flags (of_interface 48) 0x0421 ≡ false }
{}

/// Handles of each kind of invocation over a method of an interface.
pub fn handles_of_interface_methods()
    ensures by_static { may_name_interface_method 51 6 ≡ false }
    ensures by_static_late { may_name_interface_method 52 6 ≡ true }
    ensures by_special { may_name_interface_method 51 7 ≡ false }
    ensures by_special_late { may_name_interface_method 52 7 ≡ true }
    ensures by_interface { may_name_interface_method 45 9 ≡ true }
    ensures by_virtual { may_name_interface_method 52 5 ≡ false }
{}
