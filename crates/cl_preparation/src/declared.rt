//! What a class declares under a key (JVMS SE 8, 5.4.5).

ghost use Rattle.std.specs.Prelude.{◌≡◌, not, ◌&&◌, if◌then◌else◌, Some, None, is_some, option_map};
ghost use Rattle.cl_model.specs.Lineages.{is_offered, is_virtual, method_of};
ghost use Rattle.cl_model.specs.Preparation.{takes_part};
ghost use Rattle.cl_preparation.specs.Methods.{is_public_or_protected};
ghost use Rattle.cl_preparation.specs.Relatives.{bare};
ghost use Rattle.cl_preparation.specs.Walks.{declared_open, is_package_private};

use crate::key::MethodKey;
use crate::method::{is_public_or_protected, is_virtual};
use crate::overriding::flags;
use cl_hierarchy::ClassRow;
use cl_model::Told;

/// The flags of the method with this key, if a class declares one.
#[tactic(auto, using(crate::proofs::Flags::flags_keyed))]
fn flags_with<T: Told>(row: &ClassRow<T>, key: &MethodKey) -> Option<u16>
    ensures { result ≡ option_map (λ m. m.flags) (method_of (bare row.now) key.now) }
{
    flags(row, key.name(), key.descriptor())
}

/// Whether a class declares a method with this key.
#[tactic(auto, using(crate::proofs::Flags::flags_stand))]
pub(crate) fn declares<T: Told>(row: &ClassRow<T>, key: &MethodKey) -> bool
    ensures { result ≡ is_some (method_of (bare row.now) key.now) }
{
    flags_with(row, key).is_some()
}

/// Whether a class declares a method with this key that is neither private nor static (JVMS SE 8, 5.4.5).
#[tactic(auto, using(crate::proofs::Flags::flags_tell))]
pub(crate) fn offers<T: Told>(row: &ClassRow<T>, key: &MethodKey) -> bool
    ensures { result ≡ is_offered key.now (bare row.now) }
{
    match flags_with(row, key) {
        Some(flags) => is_virtual(flags),
        None => false,
    }
}

/// Whether a class declares a method with this key that takes part in overriding (JVMS SE 8, 5.4.5).
pub(crate) fn takes_part<T: Told>(row: &ClassRow<T>, key: &MethodKey) -> bool
    ensures { result ≡ takes_part key.now (bare row.now) }
{
    !key.is_special() && offers(row, key)
}

/// Whether a method of these flags is public or protected, where it takes part in overriding (JVMS SE 8, 5.4.5).
fn open_if_taking_part(is_special: bool, flags: u16) -> Option<bool>
    ensures { result ≡ (if not is_special && is_virtual flags
        then Some (is_public_or_protected flags) else None) }
{
    if is_special || !is_virtual(flags) {
        return None;
    }
    Some(is_public_or_protected(flags))
}

/// Of the method with this key that takes part in overriding, if a class declares one: whether that is public or protected
/// (JVMS SE 8, 5.4.5).
#[tactic(auto, using(crate::proofs::Flags::flags_opened))]
pub(crate) fn declared_open<T: Told>(row: &ClassRow<T>, key: &MethodKey) -> Option<bool>
    ensures { result ≡ declared_open key.now (bare row.now) }
{
    match flags_with(row, key) {
        Some(flags) => open_if_taking_part(key.is_special(), flags),
        None => None,
    }
}

/// Whether a class declares a method with this key that takes part in overriding, and is for its package alone (JVMS SE 8,
/// 5.4.5).
#[tactic(auto, using(crate::proofs::Flags::opened_tell))]
pub(crate) fn is_package_private<T: Told>(row: &ClassRow<T>, key: &MethodKey) -> bool
    ensures { result ≡ is_package_private key.now (bare row.now) }
{
    match declared_open(row, key) {
        Some(is_open) => !is_open,
        None => false,
    }
}
