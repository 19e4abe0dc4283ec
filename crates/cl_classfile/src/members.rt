//! The tables of fields and methods (JVMS SE 8, 4.5, 4.6).

ghost use Rattle.std.specs.Prelude.{◌≡◌, ◌+◌, List, [], ◌∷◌, ◌++◌, not, Some, slice_get, IfOk};
ghost use Rattle.std.specs.List.{list_any};
ghost use Rattle.cl_classfile.specs.Members.{MemberInfo};
ghost use Rattle.cl_names.specs.Steps.{Finds};
ghost use Rattle.cl_classfile.specs.Checking.{Gives, keeps_field, has_room, keeps_method_flags, keeps_method, keeps_member, same_member, checked_list};
ghost use Rattle.cl_classfile.specs.Numbers.{AreNumbers, AreNoted, IsMemberNoted, number_of};
ghost use Rattle.cl_classfile.specs.Seen.{HasPairs};
ghost use Rattle.cl_classfile.specs.Indexes.{has_place, StandTo, StandThere};
ghost use Rattle.cl_classfile.specs.declared.entry.Entry.{Entry};

use crate::checking::text_at;
use crate::entry::Entry;
use crate::fault::{Fault, ReadError};
use crate::flags::{is_field_flags, is_init_flags, is_method_flags, is_static};
use crate::index::Places;
use crate::limits::MOST_COUNTED;
use crate::member::Member;
use crate::numbers::Numbers;
use crate::rows::traits_at;
use crate::traits::{Special, Traits, is_field};
use crate::version::Owner;
use cl_descriptors::MOST_UNITS;
use std::alloc::{AllocError, Global};

/// Which members of a class.
#[derive(Clone, Copy)]
pub enum Kind {
    Field,
    Method,
}

fn keeps_field(traits: &[Traits], of_interface: bool, field: &Member) -> bool
    ensures { result ≡ keeps_field traits.now of_interface field.now }
{
    is_field_flags(of_interface, field.flags())
        && traits_at(traits, field.name_index()).unqualified
        && is_field(traits_at(traits, field.descriptor_index()).form)
}

/// Whether parameters of so many units leave one for `this`, where there is one.
fn has_room(of_class: bool, units: Option<usize>) -> bool
    ensures { result ≡ has_room of_class units }
{
    match units {
        Some(units) => of_class || units < MOST_UNITS,
        None => false,
    }
}

fn keeps_method_flags(name: Special, owner: Owner, flags: u16) -> bool
    ensures { result ≡ keeps_method_flags name owner flags }
{
    match name {
        Special::Clinit => true,
        Special::Init => is_method_flags(owner, flags) && is_init_flags(flags),
        Special::Plain | Special::Angle => is_method_flags(owner, flags),
    }
}

fn keeps_method(traits: &[Traits], owner: Owner, method: &Member) -> bool
    ensures { result ≡ keeps_method traits.now owner method.now }
{
    let name = traits_at(traits, method.name_index());
    let units = traits_at(traits, method.descriptor_index()).units;
    keeps_method_flags(name.special, owner, method.flags())
        && name.method
        && has_room(is_static(method.flags()), units)
}

/// Whether the member fits its widths and keeps its table.
fn keeps_member(kind: Kind, traits: &[Traits], owner: Owner, member: &Member) -> bool
    ensures { result ≡ keeps_member kind traits.now owner member.now }
{
    match kind {
        Kind::Field => member.fits() && keeps_field(traits, owner.of_interface, member),
        Kind::Method => member.fits() && keeps_method(traits, owner, member),
    }
}

/// Whether two members agree in name and descriptor. At one index there is one text, so its bytes are not looked at.
#[tactic(auto, using(crate::proofs::MemberRows::reflexive))]
fn same_member(pool: &[Entry], a: &Member, b: &Member) -> bool
    ensures { result ≡ same_member pool.now a.now b.now }
{
    let Some(name) = text_at(pool, a.name_index()) else {
        return false;
    };
    let Some(descriptor) = text_at(pool, a.descriptor_index()) else {
        return false;
    };
    let Some(other_name) = text_at(pool, b.name_index()) else {
        return false;
    };
    let Some(other_descriptor) = text_at(pool, b.descriptor_index()) else {
        return false;
    };
    (a.name_index() == b.name_index() || name == other_name)
        && (a.descriptor_index() == b.descriptor_index() || descriptor == other_descriptor)
}

/// Whether one of these agrees with the member.
fn is_among(pool: &[Entry], members: &[Member], member: &Member) -> bool
    ensures { result ≡ list_any (λ e. same_member pool.now e member.now) members.now }
{
    members.iter().any(|other| same_member(pool, other, member))
}

/// What `check_members` tells, of few members: each is compared with those before it, which takes no memory.
#[tactic(auto, unfolding(crate::specs::Checking::checked_list))]
pub fn check_few(
    kind: Kind,
    traits: &[Traits],
    pool: &[Entry],
    owner: Owner,
    members: &[Member],
) -> Result<(), Fault>
    ensures { Finds (λ u. u) result
        (checked_list kind traits.now owner pool.now members.now) }
{
    if MOST_COUNTED < members.len() {
        return Err(Fault::BadMember);
    }
    for i in 0..members.len() {
        let member = &members[i];
        if !keeps_member(kind, traits, owner, member) {
            return Err(Fault::BadMember);
        }
        if is_among(pool, &members[..i], member) {
            return Err(Fault::Duplicate);
        }
    }
    Ok(())
}

/// Whether no member that was placed has the name and the descriptor of this one, which is placed from now on.
fn is_new(
    places: &mut Places,
    numbers: &Numbers,
    member: &Member,
    place: usize,
) -> Result<bool, AllocError>
    ensures seen { (pool : List Entry) (before : List MemberInfo) → AreNumbers pool numbers.now
        → IsMemberNoted pool numbers.now member.now
        → HasPairs pool (number_of pool numbers.now) (has_place places.old) before
        → IfOk result (λ new. (new ≡ not (list_any (λ e. same_member pool e member.now) before))
        × HasPairs pool (number_of pool numbers.now) (has_place places.new)
        (before ++ member.now ∷ [])) }
    ensures placed { (members : List MemberInfo) → slice_get members place ≡ Some member.now
        → StandTo numbers.now places.old members place
        → IfOk result (λ _. StandTo numbers.now places.new members (place + 1)) }
{
    let name = numbers.at(member.name_index());
    let descriptor = numbers.at(member.descriptor_index());
    let first = places.put(name, descriptor, place)?;
    Ok((name == 0) | (descriptor == 0) | first)
}

/// Where each of the members stands, if a count can say how many there are, each keeps its table, and agrees with none before
/// it.
#[tactic(auto, unfolding(crate::specs::Checking::checked_list))]
pub fn check_members(
    alloc: Global,
    kind: Kind,
    traits: &[Traits],
    numbers: &Numbers,
    owner: Owner,
    members: &[Member],
) -> Result<Places, ReadError>
    // In a pool of whose texts these are the numbers.
    ensures checked { (pool : List Entry) → AreNoted pool numbers.now members.now
        → Gives (λ _. tt) result (checked_list kind traits.now owner pool members.now) }
    ensures placed { IfOk result (λ ps. StandThere numbers.now ps members.now) }
{
    if members.len() > MOST_COUNTED {
        return Err(ReadError::Fault(Fault::BadMember));
    }
    let mut places = Places::new(alloc);
    for i in 0..members.len() {
        let member = &members[i];
        if !keeps_member(kind, traits, owner, member) {
            return Err(ReadError::Fault(Fault::BadMember));
        }
        if !is_new(&mut places, numbers, member, i)? {
            return Err(ReadError::Fault(Fault::Duplicate));
        }
    }
    Ok(places)
}
