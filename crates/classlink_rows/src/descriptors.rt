//! Questions about descriptors.

use crate::names::show;
use cl_descriptors::{
    Descriptor, FieldType, Form, MethodType, form_of, read_field, read_method, units_of,
};
use std::alloc::{AllocError, Global};

/// A field's type: dimensions, units, the class that it names.
pub fn field_type(alloc: Global, bytes: &[u8]) -> Result<String, AllocError> {
    let t = match read_field(alloc, bytes) {
        Ok(t) => t,
        Err(fault) => return format!(in alloc; "{fault}"),
    };
    let copy = t.try_clone(alloc)?;
    if copy != t || copy.text(alloc)?.as_slice() != bytes {
        return String::from_str(alloc, "another copy");
    }
    let class = match t.element_name() {
        Some(name) => show(alloc, name.bytes())?,
        None => String::from_str(alloc, "-")?,
    };
    format!(in alloc; "{} dimensions {} units {class}", t.dims, t.units())
}

/// A method's type: units, how many parameters there are, each of them, what is returned, the classes that it names.
pub fn method_type(alloc: Global, bytes: &[u8]) -> Result<String, AllocError> {
    let whole = match read_method(alloc, bytes) {
        Ok(m) => Descriptor::Method(m),
        Err(fault) => return format!(in alloc; "{fault}"),
    };
    let copy = whole.try_clone(alloc)?;
    if copy != whole {
        return String::from_str(alloc, "another copy");
    }
    match copy {
        Descriptor::Method(m) => method_text(alloc, &m, bytes),
        Descriptor::Field(_t) => String::from_str(alloc, "a field"),
    }
}

fn method_text(alloc: Global, m: &MethodType, bytes: &[u8]) -> Result<String, AllocError> {
    if m.text(alloc)?.as_slice() != bytes {
        return String::from_str(alloc, "another text");
    }
    let params = params_of(alloc, m)?;
    let ret = match &m.ret {
        Some(t) => type_text(alloc, t)?,
        None => String::from_str(alloc, "V")?,
    };
    let classes = classes_of(alloc, m)?;
    let (units, count) = (m.units(), m.params.len());
    format!(in alloc; "{units} units {count} ({params} ) {ret} {classes}")
}

fn type_text(alloc: Global, t: &FieldType) -> Result<String, AllocError> {
    show(alloc, t.text(alloc)?.as_slice())
}

/// The parameters, each with a blank before it.
fn params_of(alloc: Global, m: &MethodType) -> Result<String, AllocError> {
    let mut text = String::new(alloc);
    for (i, t) in m.params.iter().enumerate() {
        if m.params.get(i) != Some(t) {
            text.push_str(" another")?;
        }
        text.push(' ')?;
        text.push_str(type_text(alloc, t)?.as_str())?;
    }
    if m.params.get(m.params.len()).is_some() || m.params.is_empty() != text.is_empty() {
        text.push_str(" and more")?;
    }
    Ok(text)
}

fn classes_of(alloc: Global, m: &MethodType) -> Result<String, AllocError> {
    let Ok(names) = m.element_names(alloc) else {
        return String::from_str(alloc, "out of memory");
    };
    let mut text = String::new(alloc);
    for name in names.as_slice() {
        text.push(' ')?;
        text.push_str(show(alloc, name.bytes())?.as_str())?;
    }
    Ok(text)
}

/// What bytes describe, and the units of a method's parameters.
pub fn form(alloc: Global, bytes: &[u8]) -> Result<String, AllocError> {
    let form = match form_of(bytes) {
        Some(Form::Plain) => "plain",
        Some(Form::Array) => "array",
        Some(Form::Method) => "method",
        Some(Form::Void) => "void",
        None => "none",
    };
    match units_of(bytes) {
        Some(units) => format!(in alloc; "{form} {units}"),
        None => format!(in alloc; "{form} -"),
    }
}
