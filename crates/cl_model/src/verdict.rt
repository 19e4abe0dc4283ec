ghost use Rattle.std.specs.Prelude.{◌≡◌, ◌∷◌, ◌<◌, ◌++◌, [], ℕ, List, length, map, string_bytes, IfOk, OnOk};
ghost use Rattle.cl_names.specs.Truth.{Decides};
ghost use Rattle.cl_model.specs.Lines.{class_text, error_texts, member_texts, verdict_text, words};
ghost use Rattle.cl_model.specs.States.{Wrong};
ghost use Rattle.cl_model.specs.Views.{error_of, verdict_of};

use crate::class::Class;
use crate::key::MemberKey;
use crate::need::Need;
use crate::primitive::Primitive;
use std::alloc::{AllocError, Global};

/// The errors of loading and linking (JVMS SE 8, 5.3.5 and 5.4.3).
#[derive(Clone, Copy, Debug, PartialEq, Eq)]
pub enum ErrorKind {
    ClassNotFoundException,
    NoClassDefFoundError,
    ClassFormatError,
    UnsupportedClassVersionError,
    ClassCircularityError,
    IllegalAccessError,
    IncompatibleClassChangeError,
    NoSuchFieldError,
    NoSuchMethodError,
}

impl ErrorKind {
    /// The error's name, which is printed before its class.
    pub fn name(&self) -> &'static str
        ensures { (names : List (List ℕ)) (c : Class) → error_texts names (error_of self.now c)
            ≡ result.now ∷ class_text names c ∷ [] }
    {
        match self {
            ErrorKind::ClassNotFoundException => "ClassNotFoundException",
            ErrorKind::NoClassDefFoundError => "NoClassDefFoundError",
            ErrorKind::ClassFormatError => "ClassFormatError",
            ErrorKind::UnsupportedClassVersionError => "UnsupportedClassVersionError",
            ErrorKind::ClassCircularityError => "ClassCircularityError",
            ErrorKind::IllegalAccessError => "IllegalAccessError",
            ErrorKind::IncompatibleClassChangeError => "IncompatibleClassChangeError",
            ErrorKind::NoSuchFieldError => "NoSuchFieldError",
            ErrorKind::NoSuchMethodError => "NoSuchMethodError",
        }
    }
}

/// How a request ends (JVMS SE 8, 5.3.5, 5.4.2, 5.4.3).
#[derive(Debug, PartialEq, Eq)]
pub enum Verdict {
    /// The class that was loaded, or that a reference means.
    Class(Class),
    /// An array of so many dimensions over a class.
    Array(u8, Class),
    /// An array of so many dimensions over a primitive type.
    PrimitiveArray(u8, Primitive),
    /// A field, by the class that declares it.
    Field(Class, MemberKey),
    /// A method, by the class that declares it.
    Method(Class, MemberKey),
    /// A class that was linked: it and all above it are prepared.
    Linked(Class),
    /// The entry is no reference to a class or a member, or the constant pool has no such entry.
    BadEntry,
    /// A member of an array was asked for.
    ArrayMember,
    /// An error, with the class that it is about. Of a name that no loader has, the loader is the one that was asked.
    Error(ErrorKind, Class),
    /// A loading constraint was to be violated: what could not be recorded or imposed (JVMS SE 8, 5.3.4).
    Linkage(Need),
}

impl Drop for Verdict {
    fn drop(self) {
        match self {
            Verdict::Class(_) => {}
            Verdict::Array(_, _) => {}
            Verdict::PrimitiveArray(_, _) => {}
            Verdict::Field(_, _) => {}
            Verdict::Method(_, _) => {}
            Verdict::Linked(_) => {}
            Verdict::BadEntry => {}
            Verdict::ArrayMember => {}
            Verdict::Error(_, _) => {}
            Verdict::Linkage(_) => {}
        }
    }
}

impl Verdict {
    ghost use Rattle.cl_model.specs.Texts.{VerdictNames};

    /// Whether the other is the same.
    pub fn is_same(&self, other: &Verdict) -> bool
        ensures { Decides result (self.now ≡ other.now) }
    {
        match (self, other) {
            (Verdict::Class(class), Verdict::Class(c)) => class.is_same(c),
            (Verdict::Array(dimensions, class), Verdict::Array(d, c)) => {
                *dimensions == *d && class.is_same(c)
            }
            (Verdict::PrimitiveArray(dimensions, base), Verdict::PrimitiveArray(d, b)) => {
                *dimensions == *d && *base == *b
            }
            (Verdict::Field(class, key), Verdict::Field(c, k)) => {
                class.is_same(c) && key.is_same(k)
            }
            (Verdict::Method(class, key), Verdict::Method(c, k)) => {
                class.is_same(c) && key.is_same(k)
            }
            (Verdict::Linked(class), Verdict::Linked(c)) => class.is_same(c),
            (Verdict::BadEntry, Verdict::BadEntry) => true,
            (Verdict::ArrayMember, Verdict::ArrayMember) => true,
            (Verdict::Error(kind, class), Verdict::Error(k, c)) => *kind == *k && class.is_same(c),
            (Verdict::Linkage(need), Verdict::Linkage(n)) => need.is_same(n),
            _ => false,
        }
    }

    /// A copy.
    pub fn try_clone(&self, alloc: Global) -> Result<Verdict, AllocError>
        ensures { IfOk result (λ v. v ≡ self.now) }
    {
        Ok(match self {
            Verdict::Class(class) => Verdict::Class(class.try_clone(alloc)?),
            Verdict::Array(dimensions, class) => {
                Verdict::Array(*dimensions, class.try_clone(alloc)?)
            }
            Verdict::PrimitiveArray(dimensions, base) => {
                Verdict::PrimitiveArray(*dimensions, *base)
            }
            Verdict::Field(class, key) => {
                Verdict::Field(class.try_clone(alloc)?, key.try_clone(alloc)?)
            }
            Verdict::Method(class, key) => {
                Verdict::Method(class.try_clone(alloc)?, key.try_clone(alloc)?)
            }
            Verdict::Linked(class) => Verdict::Linked(class.try_clone(alloc)?),
            Verdict::BadEntry => Verdict::BadEntry,
            Verdict::ArrayMember => Verdict::ArrayMember,
            Verdict::Error(kind, class) => Verdict::Error(*kind, class.try_clone(alloc)?),
            Verdict::Linkage(need) => Verdict::Linkage(need.try_clone(alloc)?),
        })
    }

    /// The text that an answer prints, with each loader by its name.
    pub fn text(&self, alloc: Global, loaders: &[String]) -> Result<String, AllocError>
        requires { VerdictNames (length loaders.now) self.now }
        ensures { IfOk result (λ t. string_bytes t ≡ verdict_text (map string_bytes loaders.now)
            (verdict_of self.now)) }
    {
        let mut text = String::new(alloc);
        self.put_text(loaders, &mut text)?;
        Ok(text)
    }

    /// Puts the text that an answer prints behind the text.
    pub fn put_text(&self, loaders: &[String], text: &mut String) -> Result<(), AllocError>
        requires { VerdictNames (length loaders.now) self.now }
        ensures { OnOk result (string_bytes text.new ≡ string_bytes text.old
            ++ verdict_text (map string_bytes loaders.now) (verdict_of self.now)) }
    {
        match self {
            Verdict::Class(class) => put_class("class", class, loaders, text),
            Verdict::Array(dimensions, class) => {
                write!(text, "array {dimensions} ")?;
                class.put_text(loaders, text)
            }
            Verdict::PrimitiveArray(dimensions, base) => {
                write!(text, "array {dimensions} {base}")
            }
            Verdict::Field(class, key) => put_member("field", class, key, loaders, text),
            Verdict::Method(class, key) => put_member("method", class, key, loaders, text),
            Verdict::Linked(class) => put_class("linked", class, loaders, text),
            Verdict::BadEntry => text.push_str("BadEntry"),
            Verdict::ArrayMember => text.push_str("ArrayMember"),
            Verdict::Error(kind, subject) => put_error(*kind, subject, loaders, text),
            Verdict::Linkage(need) => {
                text.push_str("LinkageError ")?;
                need.put_text(loaders, text)
            }
        }
    }
}

/// Puts a word and the text of a class behind the text.
fn put_class(
    word: &str,
    class: &Class,
    loaders: &[String],
    text: &mut String,
) -> Result<(), AllocError>
    requires { class.now.loader < length loaders.now }
    ensures { OnOk result (string_bytes text.new ≡ string_bytes text.old
        ++ words (word.now ∷ class_text (map string_bytes loaders.now) class.now ∷ [])) }
{
    text.push_str(word)?;
    text.push_str(" ")?;
    class.put_text(loaders, text)
}

/// Puts a word and the text of a member behind the text: the class that declares it, its name and its descriptor.
fn put_member(
    word: &str,
    class: &Class,
    key: &MemberKey,
    loaders: &[String],
    text: &mut String,
) -> Result<(), AllocError>
    requires { class.now.loader < length loaders.now }
    ensures { OnOk result (string_bytes text.new ≡ string_bytes text.old
        ++ words (word.now ∷ member_texts (map string_bytes loaders.now) class.now key.now)) }
{
    put_class(word, class, loaders, text)?;
    text.push_str(" ")?;
    key.put_text(text)
}

/// Puts the text of an error about a class behind the text.
fn put_error(
    kind: ErrorKind,
    subject: &Class,
    loaders: &[String],
    text: &mut String,
) -> Result<(), AllocError>
    requires { subject.now.loader < length loaders.now }
    ensures { OnOk result (string_bytes text.new ≡ string_bytes text.old
        ++ verdict_text (map string_bytes loaders.now) (Wrong (error_of kind subject.now))) }
{
    put_class(kind.name(), subject, loaders, text)
}
