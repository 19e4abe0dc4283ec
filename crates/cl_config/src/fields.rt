//! What a table has under its keys.

ghost use Rattle.std.specs.Prelude.{◌≡◌, ◌<◌, ◌^◌, List, [], length, map, string_bytes, nat_eq, unwrap_or, Ok};
ghost use Rattle.std.specs.List.{list_any};
ghost use Rattle.std.specs.Cmp.Lexicographic.{pointwise};
ghost use Rattle.std.specs.Option.{ok_or, option_map};
ghost use Rattle.toml.specs.Data.{Data, get_member, as_str};
ghost use Rattle.toml.specs.View.{view, table_view, array_view};
ghost use Rattle.cl_config.specs.Fields.{has_only, table_of, text_of, optional_text, name_of};
ghost use Rattle.cl_names.specs.Escape.{unescaped_name};
ghost use Rattle.cl_config.specs.Steps.{Finds, Agrees};

use crate::fault::{ConfigError, ConfigFault};
use cl_names::{Name, NameFault};
use std::alloc::Global;
use std::marker::Model;
use toml::value::Array;
use toml::{Table, Value};

/// A text of a configuration.
#[derive(Debug)]
pub struct Text {
    text: String,
}

impl Drop for Text {
    fn drop(self) {
        let Text { text: _ } = self;
    }
}

impl Model for Text {
    ghost use Rattle.std.specs.Prelude.{ℕ, List, string_bytes};

    ghost Value = { List ℕ };

    ghost view = { λ t. string_bytes t.text };
}

impl Text {
    /// A copy of a text.
    pub fn new(alloc: Global, text: &str) -> Result<Text, ConfigError>
        ensures { Agrees (λ t. t) result (Ok text.now) }
    {
        Ok(Text {
            text: String::from_str(alloc, text)?,
        })
    }

    /// The text.
    pub fn as_str(&self) -> &str
        ensures { result.now ≡ self.now }
    {
        self.text.as_str()
    }
}

/// What may stand under a key of a loader's table.
pub trait Field: Drop {
    ghost use Rattle.std.specs.Prelude.{Option, Result};
    ghost use Rattle.cl_config.specs.declared.fault.ConfigFault.{ConfigFault};

    /// What a value says, or none.
    ghost field: { ConfigFault → Option Data → Result Self ConfigFault };

    /// What a value says, or none.
    fn read(alloc: Global, wrong: ConfigFault, value: Option<&Value>) -> Result<Self, ConfigError>
    where
        Self: Sized,
        ensures { Agrees (λ x. x) result (field wrong (option_map (λ v. view v.now) value.entry)) };
}

impl Field for Text {
    ghost field = { text_of };

    fn read(alloc: Global, wrong: ConfigFault, value: Option<&Value>) -> Result<Text, ConfigError> {
        let Some(value) = value else {
            return Err(ConfigError::Fault(wrong));
        };
        text_in(alloc, wrong, value)
    }
}

impl Field for Option<Text> {
    ghost field = { optional_text };

    fn read(
        alloc: Global,
        wrong: ConfigFault,
        value: Option<&Value>,
    ) -> Result<Option<Text>, ConfigError> {
        let Some(value) = value else {
            return Ok(None);
        };
        Ok(Some(text_in(alloc, wrong, value)?))
    }
}

/// The text that a value is.
fn text_in(alloc: Global, wrong: ConfigFault, value: &Value) -> Result<Text, ConfigError>
    ensures { Agrees (λ x. x) result (ok_or (as_str (view value.now)) wrong) }
{
    match value.as_str() {
        Some(text) => Text::new(alloc, text),
        None => Err(ConfigError::Fault(wrong)),
    }
}

/// What a table says under a key.
pub fn under<T: Field>(
    alloc: Global,
    wrong: ConfigFault,
    table: &Table,
    key: &str,
) -> Result<T, ConfigError>
    ensures { Agrees (λ x. x) result (T.field wrong (get_member key.now (table_view table.now))) }
{
    T::read(alloc, wrong, value_at(table, key))
}

/// The table that a value is, with no keys but these.
pub fn table_in<'a>(
    wrong: ConfigFault,
    known: &[&str],
    value: &'a Value,
) -> Result<&'a Table, ConfigFault>
    ensures { Finds (λ t. table_view t.now) result
        (table_of wrong (λ key. list_any (λ k. pointwise nat_eq key k.now) known.now)
        (view value.now)) }
{
    match value.as_table() {
        Some(table) if has_only(table, known) => Ok(table),
        _ => Err(wrong),
    }
}

impl Field for Name {
    ghost field = { name_of };

    fn read(alloc: Global, wrong: ConfigFault, value: Option<&Value>) -> Result<Name, ConfigError> {
        let Some(value) = value else {
            return Err(ConfigError::Fault(wrong));
        };
        match value.as_str() {
            Some(text) => name_in_text(alloc, wrong, text),
            None => Err(ConfigError::Fault(wrong)),
        }
    }
}

/// The name that escaped text writes.
fn name_in_text(alloc: Global, wrong: ConfigFault, text: &str) -> Result<Name, ConfigError>
    ensures { Agrees (λ x. x) result (ok_or (unescaped_name text.now) wrong) }
{
    match Name::from_text(alloc, text) {
        Ok(name) => Ok(name),
        Err(NameFault::Memory) => Err(ConfigError::Memory),
        Err(NameFault::BadName) => Err(ConfigError::Fault(wrong)),
        Err(NameFault::NotModifiedUtf8) => Err(ConfigError::Fault(wrong)),
    }
}

/// The text that is there, or else a copy of the other.
pub fn or_else(alloc: Global, other: &Text, text: Option<Text>) -> Result<Text, ConfigError>
    ensures { Agrees (λ x. x) result (Ok (unwrap_or text other.now)) }
{
    match text {
        Some(text) => Ok(text),
        None => Text::new(alloc, other.as_str()),
    }
}

/// What stands under a key of a table.
pub fn value_at<'a>(table: &'a Table, key: &str) -> Option<&'a Value>
    ensures { option_map (λ v. view v.now) result ≡ get_member key.now (table_view table.now) }
{
    table.get(key)
}

/// Whether every key of a table is one of these.
pub(crate) fn has_only(table: &Table, known: &[&str]) -> bool
    ensures { result ≡ has_only (λ key. list_any (λ k. pointwise nat_eq key k.now) known.now)
        (table_view table.now) }
{
    for key in table.keys() {
        if !is_among(known, key.as_str()) {
            return false;
        }
    }
    true
}

/// Whether a key is one of these.
fn is_among(known: &[&str], key: &str) -> bool
    ensures { result ≡ list_any (λ k. pointwise nat_eq key.now k.now) known.now }
{
    known.iter().any(|k| key == *k)
}
