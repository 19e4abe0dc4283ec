ghost use Rattle.std.specs.Prelude.{◌≡◌, ◌≤◌, ℕ, List, [], ◌∷◌, ◌++◌, length, IfErr, IfOk, IsOkUnless, OnOk};
ghost use Rattle.std.specs.Prelude.{bytes_eq, refl, nat_eq, Some, string_bytes};
ghost use Rattle.std.specs.Option.{option_map};
ghost use Rattle.std.specs.Ordering.{nat_cmp};
ghost use Rattle.std.specs.Cmp;
ghost use Rattle.std.specs.Cmp.Lexicographic.{slice_cmp, nat_list_eq_equiv, nat_list_cmp_total, texts_ties, texts_po};
ghost use Rattle.std.specs.Cmp.Rules.{hashing};
ghost use Rattle.std.proofs.Common.{rules};
ghost use Rattle.cl_names.specs.Text.{IsModifiedUtf8};
ghost use Rattle.cl_names.specs.Digest.{fed_name};
ghost use Rattle.cl_names.specs.Truth.{Reads};
ghost use Rattle.cl_names.specs.Escape.{escaped_text, WritesName};
ghost use Rattle.cl_names.specs.Name.{TestedNameOf, WritesClass};
ghost use Rattle.cl_names.specs.Plain.{plain_of};

use crate::digest::{DIGEST_BYTES, MOST_SHARED_BYTES, bytes_to_keep};
use crate::escape::{bytes_of_text, put_printed};
use crate::kind::{
    MOST_TEXT_BYTES, has_class_form, has_method_form, has_unqualified_form, is_class_name,
    is_method_name, is_unqualified_name, package_len,
};
use crate::plain::plain;
use crate::text::is_text;
use std::alloc::{AllocError, Global};
use std::cmp::Ordering;
use std::hash::{Hash, Hasher};
use std::marker::Model;
use std::sync::ArcSlice;
use thiserror::Error;

/// A name, in modified UTF-8 (JVMS SE 8, 4.4.7). Its copies share one allocation of the bytes, of which it may be a part, so
/// that most names of a file take one allocation in all.
#[derive(Debug, Drop)]
pub struct Name {
    /// Behind the text of a long name stands its digest.
    bytes: ArcSlice<u8>,
    start: u32,
    len: u16,
    /// Of a long name, how many bytes stand before its last `/`.
    front: u16,
}

impl Model for Name {
    ghost use Rattle.std.specs.Prelude.{ℕ, List, length, ◌+◌, ◌<◌, ◌≤◌};
    ghost use Rattle.std.specs.Arc.{arc_slice_items};
    ghost use Rattle.cl_names.specs.Text.{IsModifiedUtf8};
    ghost use Rattle.cl_names.specs.Digest.{KeepsLong};
    ghost use Rattle.cl_names.specs.Name.{part_of};
    ghost use Rattle.cl_names.specs.declared.digest.TheConstants.{MOST_SHARED_BYTES};

    ghost Value = { List ℕ };

    ghost view = { λ n. part_of n.start n.len (arc_slice_items n.bytes) };

    ghost invariant = { λ n. IsModifiedUtf8 (part_of n.start n.len (arc_slice_items n.bytes))
        × (n.start + n.len ≤ length (arc_slice_items n.bytes))
        × (MOST_SHARED_BYTES < n.len
        → KeepsLong n.start n.len n.front (arc_slice_items n.bytes)) };
}

impl PartialEq for Name {
    ghost eq = { bytes_eq };

    ghost laws = { Cmp.partial_equiv_from_equiv nat_list_eq_equiv };

    fn eq(&self, other: &Name) -> bool {
        self.bytes() == other.bytes()
    }
}

impl Eq for Name {
    ghost laws = { nat_list_eq_equiv };
}

impl PartialOrd for Name {
    ghost partial_cmp = { λ x y. Some (slice_cmp nat_cmp x y) };

    ghost laws = { texts_po };

    fn partial_cmp(&self, other: &Name) -> Option<Ordering> {
        Some(self.cmp(other))
    }
}

impl Ord for Name {
    ghost cmp = { slice_cmp nat_cmp };

    ghost total = { nat_list_cmp_total };

    ghost matches_partial_cmp = { λ x y. refl };

    ghost matches_eq = { λ x y. texts_ties x y };

    fn cmp(&self, other: &Name) -> Ordering {
        self.bytes().cmp(other.bytes())
    }
}

impl Hash for Name {
    ghost hash_input = { fed_name };

    ghost respects_eq = { Prim.search (hashing, rules) };

    // The bytes at once, and then one that no text has, as std hashes a str: byte by byte takes ten times as long. Behind a
    // digest another, so that no short name is hashed as a long one.
    fn hash<H: Hasher>(&self, state: &mut H) {
        state.write(self.bytes_to_hash());
        state.write_u8(if self.is_long() { 0xfe } else { 0xff });
    }
}

/// Why a name could not be made.
#[derive(Clone, Copy, Debug, PartialEq, Eq, Error)]
pub enum NameFault {
    #[error("N0 Memory")]
    Memory,
    #[error("N1 NotModifiedUtf8")]
    NotModifiedUtf8,
    #[error("N2 BadName")]
    BadName,
}

impl From<AllocError> for NameFault {
    ghost use Rattle.cl_names.specs.declared.name.NameFault.TheVariants.{Memory};

    ghost from_gives = { λ _ e. e ≡ Memory };

    fn from(_e: AllocError) -> NameFault {
        NameFault::Memory
    }
}

impl Name {
    ghost use Rattle.std.specs.Prelude.{◌+◌, string_bytes, take};
    ghost use Rattle.cl_names.specs.Truth.{Decides};
    ghost use Rattle.std.specs.Arc.{arc_slice_items};
    ghost use Rattle.std.specs.List.{starts_with};
    ghost use Rattle.cl_names.specs.Kind.{IsUnqualified, IsMethod, IsClass, IsNameOf, is_unqualified_name, is_method_name, is_class_name, HasNoSlash, package_of};
    ghost use Rattle.cl_names.specs.Digest.{hashed_bytes, is_long};
    ghost use Rattle.cl_names.specs.Name.{NameOf, KindNameOf, TextNameOf, part_of};
    ghost use Rattle.cl_names.specs.declared.name.NameFault.TheVariants.{Memory};

    /// The name of any kind that the bytes spell: `NotModifiedUtf8` where they spell nothing, `BadName`
    /// where they are over `MOST_TEXT_BYTES`, and then `Memory` (JVMS SE 8, 4.4.7).
    pub fn any(alloc: Global, bytes: &[u8]) -> Result<Name, NameFault>
        ensures { NameOf bytes.now result }
    {
        name_of(alloc, bytes, true)
    }

    /// The name whose bytes these are, which are known to be text: they are copied, and not looked at again.
    pub fn of_text(alloc: Global, bytes: &[u8]) -> Result<Name, AllocError>
        requires text { IsModifiedUtf8 bytes.now }
        requires short { length bytes.now ≤ MOST_TEXT_BYTES }
        ensures { IfOk result (λ name. name ≡ bytes.now) }
    {
        let front = if bytes.len() > MOST_SHARED_BYTES {
            package_len(bytes)
        } else {
            0
        };
        Ok(Name {
            bytes: ArcSlice::from_vec(bytes_to_keep(alloc, bytes)?)?,
            start: 0,
            len: bytes.len() as u16,
            front: front as u16,
        })
    }

    /// The name of `len` of these bytes from `start` on, which are known to be text: it shares them, and they are not looked
    /// at again. It takes memory where `len` is over `MOST_SHARED_BYTES`, or `start` over 4,294,967,295, alone.
    pub fn of_part(
        alloc: Global,
        bytes: &ArcSlice<u8>,
        start: usize,
        len: usize,
    ) -> Result<Name, AllocError>
        requires within { start + len ≤ length (arc_slice_items bytes.now) }
        requires text { IsModifiedUtf8 (part_of start len (arc_slice_items bytes.now)) }
        requires short { len ≤ MOST_TEXT_BYTES }
        ensures { IfOk result (λ name. name ≡ part_of start len (arc_slice_items bytes.now)) }
    {
        if len > MOST_SHARED_BYTES || start > u32::MAX as usize {
            return Name::of_text(alloc, &bytes.as_slice()[start..][..len]);
        }
        Ok(Name {
            bytes: bytes.clone()?,
            start: start as u32,
            len: len as u16,
            front: 0,
        })
    }

    /// The class's name that the bytes spell, unqualified names with `/` between them: `NotModifiedUtf8`,
    /// then `BadName` where it is another or over `MOST_TEXT_BYTES`, then `Memory` (JVMS SE 8, 4.2.1).
    pub fn class(alloc: Global, bytes: &[u8]) -> Result<Name, NameFault>
        ensures { KindNameOf IsClass bytes.now result }
    {
        name_of(alloc, bytes, has_class_form(bytes))
    }

    /// The unqualified name that the bytes spell, with none of `.` `;` `[` `/`: `NotModifiedUtf8`, then
    /// `BadName` where it is another or over `MOST_TEXT_BYTES`, then `Memory` (JVMS SE 8, 4.2.2).
    pub fn unqualified(alloc: Global, bytes: &[u8]) -> Result<Name, NameFault>
        ensures { KindNameOf IsUnqualified bytes.now result }
    {
        name_of(alloc, bytes, has_unqualified_form(bytes))
    }

    /// The method's name that the bytes spell, unqualified without `<` and `>`, or `<init>` or
    /// `<clinit>`: `NotModifiedUtf8`, then `BadName` where it is another or over `MOST_TEXT_BYTES`, then
    /// `Memory` (JVMS SE 8, 4.2.2).
    pub fn method(alloc: Global, bytes: &[u8]) -> Result<Name, NameFault>
        ensures { KindNameOf IsMethod bytes.now result }
    {
        name_of(alloc, bytes, has_method_form(bytes))
    }

    /// The name of any kind that escaped text writes: each code unit as itself, where it is one of
    /// 0x21 to 0x7E but `\`, or as `\u` and four hexadecimal digits. `BadName` where the text is no
    /// such text or writes over `MOST_TEXT_BYTES`, and then `Memory`.
    pub fn from_text(alloc: Global, text: &str) -> Result<Name, NameFault>
        ensures { TextNameOf text.now result }
    {
        let bytes = bytes_of_text(alloc, text.as_bytes())?;
        // (a copy, since bytes that grew may have room for twice as many)
        Ok(Name::of_text(alloc, bytes.as_slice())?)
    }

    /// The name as escaped text, in lower case, with escapes only where they are needed, or `Memory`.
    pub fn text(&self, alloc: Global) -> Result<String, NameFault>
        ensures printed { IfOk result (λ text. string_bytes text ≡ escaped_text self.now) }
        ensures memory { IsOkUnless result Memory }
    {
        let mut text = String::with_capacity(alloc, self.bytes().len())?;
        self.put_text(&mut text)?;
        Ok(text)
    }

    /// Puts the name as escaped text behind the text. Where the text cannot grow, some of it may stand there.
    pub fn put_text(&self, text: &mut String) -> Result<(), AllocError>
        ensures { OnOk result (string_bytes text.new
            ≡ string_bytes text.old ++ escaped_text self.now) }
    {
        put_printed(text, self.bytes())
    }

    /// Whether it is a class's name (JVMS SE 8, 4.2.1).
    pub fn is_class(&self) -> bool
        ensures kind { Decides result (IsNameOf IsClass self.now) }
        ensures test { result ≡ is_class_name self.now }
    {
        is_class_name(self.bytes())
    }

    /// Whether it is an unqualified name (JVMS SE 8, 4.2.2).
    pub fn is_unqualified(&self) -> bool
        ensures kind { Decides result (IsNameOf IsUnqualified self.now) }
        ensures test { result ≡ is_unqualified_name self.now }
    {
        is_unqualified_name(self.bytes())
    }

    /// Whether it is a method's name (JVMS SE 8, 4.2.2).
    pub fn is_method(&self) -> bool
        ensures kind { Decides result (IsNameOf IsMethod self.now) }
        ensures test { result ≡ is_method_name self.now }
    {
        is_method_name(self.bytes())
    }

    /// The package of a class's name: what stands before the last `/`, nothing where there is none
    /// (JVMS SE 8, 5.3).
    pub fn package(&self) -> &[u8]
        ensures before { (front last : List ℕ) → self.now ≡ front ++ 0x2f ∷ last → HasNoSlash last
            → result.now ≡ front }
        ensures none { HasNoSlash self.now → result.now ≡ [] }
        ensures value { result.now ≡ package_of self.now }
    {
        &self.bytes()[..self.package_len()]
    }

    /// How many bytes stand before the last `/`. Constant time, if the name is long.
    fn package_len(&self) -> usize
        ensures within { result ≤ length self.now }
        ensures before { take result self.now ≡ package_of self.now }
    {
        if self.is_long() {
            self.front as usize
        } else {
            package_len(self.bytes())
        }
    }

    /// Whether its bytes begin with those of `prefix`.
    pub fn starts_with(&self, prefix: &Name) -> bool
        ensures begins { Decides result ((rest : List ℕ) × (self.now ≡ prefix.now ++ rest)) }
        ensures value { result ≡ starts_with nat_eq self.now prefix.now }
    {
        self.bytes().starts_with(prefix.bytes())
    }

    /// The bytes, in modified UTF-8.
    pub fn bytes(&self) -> &[u8]
        ensures bytes { result.now ≡ self.now }
        ensures text { IsModifiedUtf8 self.now }
        ensures short { length self.now ≤ MOST_TEXT_BYTES }
    {
        &self.bytes.as_slice()[self.start as usize..][..self.len as usize]
    }

    /// Whether a digest stands behind the text.
    fn is_long(&self) -> bool
        ensures { result ≡ is_long self.now }
    {
        self.len as usize > MOST_SHARED_BYTES
    }

    /// What a table hashes of it: its bytes, or the digest of a long one.
    fn bytes_to_hash(&self) -> &[u8]
        ensures { result.now ≡ hashed_bytes self.now }
    {
        if !self.is_long() {
            return self.bytes();
        }
        &self.bytes.as_slice()[self.start as usize + self.len as usize..][..DIGEST_BYTES]
    }

    /// The name in UTF-8, as a system's paths are written, where a supplementary character is one character; none where
    /// the name has U+0000 or half of a supplementary character.
    pub fn plain(&self, alloc: Global) -> Result<Option<String>, AllocError>
        ensures { IfOk result (λ o. option_map string_bytes o ≡ plain_of self.now) }
    {
        plain(alloc, self.bytes())
    }

    /// A copy: another handle on the same bytes, which takes no memory. An error only past as many copies as a counter
    /// counts.
    pub fn try_clone(&self, _alloc: Global) -> Result<Name, AllocError>
        ensures { IfOk result (λ name. name ≡ self.now) }
    {
        Ok(Name {
            bytes: self.bytes.clone()?,
            start: self.start,
            len: self.len,
            front: self.front,
        })
    }
}

/// The class's name that escaped text writes, if it writes one (JVMS SE 8, 4.2.1): what a script or a
/// bundle calls a class by. A text that writes no name is told without regard to memory.
pub fn class_name(alloc: Global, text: &str) -> Result<Option<Name>, AllocError>
    ensures writes { Reads (WritesClass text.now) result }
    ensures memory { IfErr result (λ _. (name : List ℕ) × WritesName text.now name) }
{
    let name = match Name::from_text(alloc, text) {
        Ok(name) => name,
        Err(NameFault::Memory) => return Err(AllocError),
        Err(NameFault::NotModifiedUtf8) => return Ok(None),
        Err(NameFault::BadName) => return Ok(None),
    };
    if !name.is_class() {
        return Ok(None);
    }
    Ok(Some(name))
}

/// The name that the bytes spell, where they have the form that is wanted.
#[tactic(auto, using(crate::proofs::Texts::text_from_test))]
fn name_of(alloc: Global, bytes: &[u8], has_form: bool) -> Result<Name, NameFault>
    ensures { TestedNameOf has_form bytes.now result }
{
    if !is_text(bytes) {
        return Err(NameFault::NotModifiedUtf8);
    }
    if !has_form || bytes.len() > MOST_TEXT_BYTES {
        return Err(NameFault::BadName);
    }
    Ok(Name::of_text(alloc, bytes)?)
}
