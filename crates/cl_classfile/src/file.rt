ghost use Rattle.std.specs.Prelude.{◌≡◌, ◌≤◌, ◌↔◌, ℕ, List, is_some, IfOk, IfErr, IfSome, Ok, IsErrOf, slice_get};
ghost use Rattle.std.specs.Option.{option_map, option_and_then};
ghost use Rattle.cl_classfile.specs.declared.fault.Fault.{Fault};
ghost use Rattle.cl_classfile.specs.declared.fault.Fault.TheVariants as faults;
ghost use Rattle.cl_classfile.specs.declared.fault.ReadError.TheVariants as errors;
ghost use Rattle.cl_classfile.specs.Structure.{Structure, at, Fits, Spells, spelling, IsClassFile, HasOtherMagic, HasOtherVersion};
ghost use Rattle.cl_classfile.specs.Files.{class_name, file_of, is_interface, is_public, typed_reference, reference};
ghost use Rattle.cl_classfile.specs.References.{plain_reference, refers, IsCited};
ghost use Rattle.cl_names.specs.Kind.{IsNameOf, IsClass};
ghost use Rattle.std.specs.List.{AllByRecursion};
ghost use Rattle.cl_classfile.specs.Raw.{plain_file, HoldsText};
ghost use Rattle.cl_classfile.specs.View.{plain_parts};
ghost use Rattle.cl_classfile.specs.Refusals.{GivesFile};
ghost use Rattle.cl_classfile.specs.Indexes.{IsIndexOf};
ghost use Rattle.cl_classfile.specs.Mentions.{AreMentionsOf};
ghost use Rattle.cl_names.specs.Steps.{Finds};
ghost use Rattle.cl_classfile.specs.Checking.{Gives, checked_attributes, checked_tables, kept_file, parts_of};
ghost use Rattle.cl_classfile.specs.Reading.{header_at, read_of};

use crate::attribute::Attribute;
use crate::checking::{check_class, class_name};
use crate::entry::Entry;
use crate::fault::{Fault, ReadError};
use crate::flags::{is_interface, is_public};
use crate::index::{Index, are_few, index_of};
use crate::limits::MOST_ENTRIES;
use crate::member::{Member, attributes_fit};
use crate::members::{Kind, check_few, check_members};
use crate::mentions::{Mentions, mentions_of};
use crate::numbers::numbers_of;
use crate::parts::{Parts, Refused};
use crate::raw::{RawEntry, borrowed_entries, owned_entries};
use crate::reading::{RawFile, whole_of};
use crate::reference::{Reference, reference_at};
use crate::rows::{all_traits, at, check_entries};
use crate::traits::Traits;
use crate::version::{Owner, Version, check_version};
use crate::widths::check_slots;
use cl_names::Name;
use std::alloc::{AllocError, Global};
use std::marker::Model;

/// A class file, whose parts keep the tables of JVMS SE 8, 4.1 and 4.4 to 4.6.
#[derive(Debug, Drop)]
pub struct ClassFile {
    parts: Parts,
    /// Where fields and methods stand, unless they are few.
    index: Option<Index>,
    /// Which interfaces one text names.
    mentions: Mentions,
}

impl Model for ClassFile {
    ghost use Rattle.cl_classfile.specs.Structure.{Structure, IsClassFile};

    ghost Value = { Structure };

    ghost use Rattle.cl_classfile.specs.View.{structure};
    ghost use Rattle.cl_classfile.specs.Indexes.{IsIndexOf};
    ghost use Rattle.cl_classfile.specs.Mentions.{AreMentionsOf};

    ghost view = { structure };

    ghost invariant = { λ f. IsClassFile (structure f) × IsIndexOf f.index (structure f) ×
        AreMentionsOf (structure f) f.mentions };
}

impl ClassFile {
    /// The class file of these parts, which are handed back where they are no class file's.
    ///
    /// The errors come in the order of `read`: F2; F5 of 0 for a pool over 65,534 entries, F5 for each entry in turn that no
    /// bytes spell where it stands (the last one, where it is a long or a double; the one behind such an entry, where it
    /// is not `Unusable`; an `Unusable` that stands elsewhere), and then for each in turn that breaks its row; F6; F9,
    /// also for over 65,535 interfaces; F7 for over 65,535 fields, and F7 and then F8 for each field, where one with
    /// over 65,535 attributes or an attribute over 4,294,967,295 bytes is F7 too; the methods likewise; F7 for such
    /// attributes of the class. F0 where memory was refused.
    pub fn from_parts(alloc: Global, parts: Parts) -> Result<ClassFile, Refused>
        // The file has just these parts, and bytes spell it.
        ensures found { IfOk result (λ f. (f ≡ plain_parts parts) × Spells (spelling f) f) }
        // Parts that bytes spell are taken, unless memory runs out.
        ensures only { (bytes : List ℕ) → Spells bytes (plain_parts parts)
            → GivesFile result (Ok (plain_parts parts)) }
        // Which fault it is.
        ensures exact { GivesFile result (parts_of (plain_parts parts)) }
        // Refused parts are as they were.
        ensures back { IfErr result (λ r. r.parts ≡ parts) }
    {
        match check_parts(alloc, &parts) {
            Ok((index, mentions)) => Ok(class_file(parts, index, mentions)),
            Err(error) => Err(Refused { parts, error }),
        }
    }

    /// The version of the file (JVMS SE 8, 4.1).
    pub fn version(&self) -> Version
        ensures { result ≡ self.now.version }
    {
        self.parts.version
    }

    /// The class's flags (JVMS SE 8, 4.1).
    pub fn flags(&self) -> u16
        ensures { result ≡ self.now.flags }
    {
        self.parts.flags
    }

    /// Whether the class is public: it may be used from outside its package (JVMS SE 8, table 4.1-A).
    pub fn is_public(&self) -> bool
        ensures { result ≡ is_public (file_of self.now).flags }
    {
        is_public(self.parts.flags)
    }

    /// Whether the class is an interface (JVMS SE 8, table 4.1-A).
    pub fn is_interface(&self) -> bool
        ensures { result ≡ is_interface (file_of self.now) }
    {
        is_interface(self.parts.flags)
    }

    /// The index of the entry of the class itself.
    pub fn this_class(&self) -> u16
        ensures { result ≡ self.now.this_class }
    {
        self.parts.this_class
    }

    /// The index of the entry of the superclass, and 0 in `java/lang/Object`.
    pub fn super_class(&self) -> u16
        ensures { result ≡ self.now.super_class }
    {
        self.parts.super_class
    }

    /// The entries of the pool from index 1 on.
    pub fn pool(&self) -> &[Entry]
        ensures entries { result.now ≡ self.now.pool }
        ensures sound { IsClassFile self.now }
    {
        self.parts.pool.as_slice()
    }

    /// The indices of the entries of the interfaces, in order.
    pub fn interfaces(&self) -> &[u16]
        ensures { result.now ≡ self.now.interfaces }
    {
        self.parts.interfaces.as_slice()
    }

    /// The fields, in order.
    pub fn fields(&self) -> &[Member]
        ensures { result.now ≡ self.now.fields }
    {
        self.parts.fields.as_slice()
    }

    /// The methods, in order.
    pub fn methods(&self) -> &[Member]
        ensures { result.now ≡ self.now.methods }
    {
        self.parts.methods.as_slice()
    }

    /// The attributes of the class, in order.
    pub fn attributes(&self) -> &[Attribute]
        ensures { result.now ≡ self.now.attributes }
    {
        self.parts.attributes.as_slice()
    }

    /// Where the fields and the methods stand, unless they are few.
    pub(crate) fn index(&self) -> Option<&Index>
        ensures index { IsIndexOf (option_map (λ i. i.now) result) self.now }
        ensures sound { IsClassFile self.now }
    {
        self.index.as_ref()
    }

    /// The name of the class.
    pub fn this_name(&self) -> &Name
        ensures name { result.now ≡ (file_of self.now).name }
        ensures class { IsNameOf IsClass result.now }
    {
        class_name(self.parts.pool.as_slice(), self.parts.this_class).unwrap()
    }

    /// The name of the superclass, if there is one.
    pub fn super_name(&self) -> Option<&Name>
        ensures name { option_map (λ n. n.now) result ≡ (file_of self.now).super_name }
        ensures class { IfSome result (λ n. IsNameOf IsClass n.now) }
    {
        class_name(self.parts.pool.as_slice(), self.parts.super_class)
    }

    /// The name of a direct superinterface, counted from 0, as far as there are any.
    pub fn interface_name(&self, place: usize) -> Option<&Name>
        ensures { option_map (λ n. n.now) result ≡ slice_get (file_of self.now).interfaces place }
    {
        interface_name(&self.parts, place)
    }

    /// The place of a direct superinterface of the same name as the one at a place, which comes first or is that one: of the
    /// interfaces that one text of the pool names the first, where the class names more than a few. So who looks through
    /// the interfaces need not compare a long name as often as it is named. Constant time.
    pub fn first_of_name(&self, place: usize) -> usize
        ensures before { result ≤ place }
        ensures same { slice_get (file_of self.now).interfaces result
            ≡ slice_get (file_of self.now).interfaces place }
    {
        self.mentions.first(place)
    }

    /// What the entry at an index refers to, and nothing where it is neither a class or an array nor a member of one
    /// (JVMS SE 8, 4.4.1, 4.4.2).
    pub fn reference(&self, index: u16) -> Option<Reference<'_>>
        // Its texts are those of the reference.
        ensures value { option_and_then typed_reference (option_map plain_reference result)
            ≡ reference (file_of self.now) index }
        ensures some { is_some result ≡ refers (at self.now.pool index) }
        // Each text is of its kind.
        ensures sound { IfSome result (λ r. IsCited (plain_reference r)) }
    {
        reference_at(self.parts.pool.as_slice(), index)
    }
}

/// The name of the class of the pool that stands at a place.
fn interface_name(parts: &Parts, place: usize) -> Option<&Name>
    ensures { option_map (λ n. n.now) result ≡ option_and_then (class_name parts.now.pool.items)
        (slice_get parts.now.interfaces.items place) }
{
    let index = parts.interfaces.as_slice().get(place)?;
    class_name(parts.pool.as_slice(), *index)
}

fn class_file(parts: Parts, index: Option<Index>, mentions: Mentions) -> ClassFile
    requires file { IsClassFile (plain_parts parts) }
    requires index { IsIndexOf index (plain_parts parts) }
    requires mentions { AreMentionsOf (plain_parts parts) mentions }
    ensures { result ≡ plain_parts parts }
{
    ClassFile {
        parts,
        index,
        mentions,
    }
}

/// Whether the attributes fit their widths.
fn check_attributes(attributes: &[Attribute]) -> Result<(), Fault>
    ensures { Finds (λ u. u) result (checked_attributes attributes.now) }
{
    if !attributes_fit(attributes) {
        return Err(Fault::BadMember);
    }
    Ok(())
}

/// Whether the flags and the supertypes keep their tables, then the fields, the methods and the attributes. With the index
/// of the members.
#[tactic(auto, unfolding(crate::specs::Checking::checked_tables))]
fn check_tables(alloc: Global, traits: &[Traits], parts: &Parts) -> Result<Option<Index>, ReadError>
    ensures tables { Gives (λ _. tt) result (checked_tables traits.now parts.now.pool.items
        (plain_parts parts.now)) }
    ensures index { IfOk result (λ i. IsIndexOf i (plain_parts parts.now)) }
{
    check_class(parts)?;
    let pool = parts.pool.as_slice();
    let owner = Owner {
        of_interface: is_interface(parts.flags),
        major: parts.version.major,
    };
    let fields = parts.fields.as_slice();
    let methods = parts.methods.as_slice();
    if are_few(fields, methods) {
        check_few(Kind::Field, traits, pool, owner, fields)?;
        check_few(Kind::Method, traits, pool, owner, methods)?;
        check_attributes(parts.attributes.as_slice())?;
        return Ok(None);
    }
    let numbers = numbers_of(alloc, pool, fields, methods)?;
    let fields = check_members(alloc, Kind::Field, traits, &numbers, owner, fields)?;
    let methods = check_members(alloc, Kind::Method, traits, &numbers, owner, methods)?;
    check_attributes(parts.attributes.as_slice())?;
    Ok(Some(index_of(numbers, fields, methods)))
}

/// Marks the text by which a class is named.
fn mark(pool: &[RawEntry<'_>], class: u16, marks: &mut [bool]) {
    if let Some(RawEntry::Class(text)) = at(pool, class) {
        if text > 0 {
            if let Some(mark) = marks.get_mut(text as usize - 1) {
                *mark = true;
            }
        }
    }
}

/// Of each entry, whether it is the name of the class or of a direct supertype. Loading copies these, and where the class
/// is not recorded the copies outlive its file.
fn marks_of(alloc: Global, file: &RawFile<'_>) -> Result<Vec<bool>, AllocError> {
    let pool = file.pool.as_slice();
    let mut marks = vec![in alloc; false; pool.len()]?;
    mark(pool, file.this_class, marks.as_mut_slice());
    mark(pool, file.super_class, marks.as_mut_slice());
    for interface in file.interfaces.as_slice() {
        mark(pool, *interface, marks.as_mut_slice());
    }
    Ok(marks)
}

/// The parts of what was read, of their own.
fn owned_parts(alloc: Global, file: RawFile<'_>) -> Result<Parts, AllocError>
    requires { AllByRecursion HoldsText (plain_file file).pool }
    ensures { IfOk result (λ p. plain_parts p ≡ plain_file file.entry) }
{
    let apart = marks_of(alloc, &file)?;
    let pool = owned_entries(alloc, file.pool.as_slice(), apart.as_slice())?;
    Ok(Parts {
        version: file.version,
        pool,
        flags: file.flags,
        this_class: file.this_class,
        super_class: file.super_class,
        interfaces: file.interfaces,
        fields: file.fields,
        methods: file.methods,
        attributes: file.attributes,
    })
}

#[tactic(auto, unfolding(crate::specs::Checking::kept_file))]
fn kept_file(alloc: Global, file: RawFile<'_>) -> Result<ClassFile, ReadError>
    requires { Fits (plain_file file) }
    ensures { Gives (λ f. f) result (kept_file (plain_file file.entry)) }
{
    let traits = all_traits(alloc, file.pool.as_slice())?;
    check_entries(file.version.major, traits.as_slice(), file.pool.as_slice())?;
    let parts = owned_parts(alloc, file)?;
    let index = check_tables(alloc, traits.as_slice(), &parts)?;
    let mentions = mentions_of(alloc, parts.pool.as_slice(), parts.interfaces.as_slice())?;
    Ok(class_file(parts, index, mentions))
}

/// Whether the parts are those of a class file, with the index of its members and what one text names of its interfaces.
#[tactic(auto, unfolding(crate::specs::Checking::parts_of, crate::specs::Checking::checked_pool, crate::specs::Checking::kept_file))]
fn check_parts(alloc: Global, parts: &Parts) -> Result<(Option<Index>, Mentions), ReadError>
    ensures parts { Gives (λ _. plain_parts parts.now) result (parts_of (plain_parts parts.now)) }
    ensures index { IfOk result (λ x. IsIndexOf x.0 (plain_parts parts.now)) }
    ensures mentions { IfOk result (λ x. AreMentionsOf (plain_parts parts.now) x.1) }
{
    check_version(parts.version)?;
    if parts.pool.len() > MOST_ENTRIES {
        return Err(ReadError::Fault(Fault::BadPool(0)));
    }
    let pool = borrowed_entries(alloc, parts.pool.as_slice())?;
    check_slots(pool.as_slice())?;
    let traits = all_traits(alloc, pool.as_slice())?;
    check_entries(parts.version.major, traits.as_slice(), pool.as_slice())?;
    let index = check_tables(alloc, traits.as_slice(), parts)?;
    let mentions = mentions_of(alloc, parts.pool.as_slice(), parts.interfaces.as_slice())?;
    Ok((index, mentions))
}

#[tactic(auto, unfolding(crate::specs::Reading::read_of))]
fn read_of(alloc: Global, bytes: &[u8]) -> Result<ClassFile, ReadError>
    ensures exact { Gives (λ f. f) result (read_of bytes.now) }
    ensures early { (f : Fault) → header_at bytes.now ≡ Err f → IsErrOf result (errors.Fault f) }
{
    let file = whole_of(alloc, bytes)?;
    kept_file(alloc, file)
}

/// The file that the bytes spell, all of the bytes.
///
/// The errors come in this order: those of the bytes from left to right (F1 to F3, F5 at a count of 0, at an unknown
/// tag and at a long or a double as the last entry), F4, F5 for each entry in turn, F6, F9, and F7 and then F8 for
/// each field and then for each method.
pub fn read(alloc: Global, bytes: &[u8]) -> Result<ClassFile, ReadError>
    // What is read is spelled so.
    ensures found { IfOk result (λ f. Spells bytes.now f) }
    // What is spelled so is read, unless memory runs out.
    ensures only { (f : Structure) → Spells bytes.now f → Gives (λ g. g) result (Ok f) }
    // Which fault it is.
    ensures exact { Gives (λ f. f) result (read_of bytes.now) }
    ensures magic { IsErrOf result (errors.Fault faults.BadMagic) ↔ HasOtherMagic bytes.now }
    ensures version { IsErrOf result (errors.Fault faults.Version) ↔ HasOtherVersion bytes.now }
{
    read_of(alloc, bytes)
}
