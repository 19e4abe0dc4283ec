//! What is true of the texts of the pool, each looked at once for all entries that name it.

ghost use Rattle.std.specs.Prelude.{◌≡◌, true};
ghost use Rattle.cl_names.specs.Kind.{is_class_name, is_unqualified_name, is_method_name};
ghost use Rattle.cl_names.specs.Text.{is_text};
ghost use Rattle.cl_descriptors.specs.Reading.{form_of};
ghost use Rattle.cl_classfile.specs.Rows.{special_of, is_field, is_array, is_call, is_void, traits_of, nothing, HasSemicolon};

use cl_descriptors::{Form, form_and_units};
use cl_names::{Kinds, kinds_of};

/// How a name begins that no programmer writes (JVMS SE 8, 2.9).
#[derive(Clone, Copy)]
pub enum Special {
    /// Not with `<`.
    Plain,
    /// It is `<init>`.
    Init,
    /// It is `<clinit>`.
    Clinit,
    /// With `<`, and it is another.
    Angle,
}

/// What is true of a text, as far as entries ask.
#[derive(Clone, Copy)]
pub struct Traits {
    /// An entry holds it.
    pub stands: bool,
    /// It is modified UTF-8.
    pub text: bool,
    /// A class's name, or the descriptor of an array.
    pub class: bool,
    /// An unqualified name.
    pub unqualified: bool,
    /// A method's name.
    pub method: bool,
    pub special: Special,
    /// What it is the descriptor of.
    pub form: Option<Form>,
    /// How many units the parameters count of a method descriptor.
    pub units: Option<usize>,
}

/// Of what is no text nothing is true.
pub fn nothing() -> Traits
    ensures { result ≡ nothing }
{
    Traits {
        stands: false,
        text: false,
        class: false,
        unqualified: false,
        method: false,
        special: Special::Plain,
        form: None,
        units: None,
    }
}

fn special_of(text: &[u8]) -> Special
    ensures { result ≡ special_of text.now }
{
    // Hardly a text begins so.
    let [b'<', ..] = text else {
        return Special::Plain;
    };
    if text == b"<init>".as_slice() {
        return Special::Init;
    }
    if text == b"<clinit>".as_slice() {
        return Special::Clinit;
    }
    Special::Angle
}

pub fn is_field(form: Option<Form>) -> bool
    ensures { result ≡ is_field form }
{
    match form {
        Some(Form::Plain | Form::Array) => true,
        _ => false,
    }
}

fn is_array(form: Option<Form>) -> bool
    ensures { result ≡ is_array form }
{
    match form {
        Some(Form::Array) => true,
        _ => false,
    }
}

pub fn is_call(form: Option<Form>) -> bool
    ensures { result ≡ is_call form }
{
    match form {
        Some(Form::Method | Form::Void) => true,
        _ => false,
    }
}

pub fn is_void(form: Option<Form>) -> bool
    ensures { result ≡ is_void form }
{
    match form {
        Some(Form::Void) => true,
        _ => false,
    }
}

/// Whether a `;` stands so many bytes before the end.
fn has_semicolon(text: &[u8], back: usize) -> bool
    ensures { result ≡ true → HasSemicolon text.now }
{
    match text.get(text.len().wrapping_sub(back)) {
        Some(byte) => *byte == b';',
        None => false,
    }
}

/// Whether it ends as descriptors do that end in a class's name, or in that of a last parameter.
fn ends_with_class(text: &[u8]) -> bool
    ensures { result ≡ true → HasSemicolon text.now }
{
    has_semicolon(text, 1) || has_semicolon(text, 3)
}

/// What a text of this form is as a name. Most descriptors end in `;` or in `;)V`, and need no walk: what has a form is text,
/// and what has a `;` is no name (JVMS SE 8, 4.2, 4.3).
fn kinds_beside(form: Option<Form>, text: &[u8]) -> Kinds
    requires { form ≡ form_of text.now }
    ensures text { result.text ≡ is_text text.now }
    ensures class { result.class ≡ is_class_name text.now }
    ensures unqualified { result.unqualified ≡ is_unqualified_name text.now }
    ensures method { result.method ≡ is_method_name text.now }
{
    if form.is_none() {
        return kinds_of(text);
    }
    if !ends_with_class(text) {
        return kinds_of(text);
    }
    Kinds {
        text: true,
        class: false,
        unqualified: false,
        method: false,
    }
}

pub fn traits_of(text: &[u8]) -> Traits
    ensures { result ≡ traits_of text.now }
{
    let (form, units) = form_and_units(text);
    let kinds = kinds_beside(form, text);
    Traits {
        stands: true,
        text: kinds.text,
        class: kinds.class || is_array(form),
        unqualified: kinds.unqualified,
        method: kinds.method,
        special: special_of(text),
        form,
        units,
    }
}
