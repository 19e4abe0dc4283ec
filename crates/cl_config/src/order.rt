//! Where a loader looks first.

ghost use Rattle.std.specs.Prelude.{◌≡◌, Ok};
ghost use Rattle.cl_config.specs.Fields.{order_of};
ghost use Rattle.cl_config.specs.Steps.{Agrees};

use crate::fault::{ConfigError, ConfigFault};
use crate::fields::Field;
use std::alloc::Global;
use toml::Value;

/// Where a loader looks first for a name that none of its imports decides (JVMS SE 8, 5.3.2).
#[derive(Clone, Copy, Debug, PartialEq, Eq)]
pub enum Order {
    /// At its parents, then at its own content.
    ParentFirst,
    /// At its own content, then at its parents.
    ChildFirst,
}

impl Field for Order {
    ghost field = { order_of };

    fn read(
        _alloc: Global,
        wrong: ConfigFault,
        value: Option<&Value>,
    ) -> Result<Order, ConfigError> {
        let Some(value) = value else {
            return Ok(Order::ParentFirst);
        };
        let Some(text) = value.as_str() else {
            return Err(ConfigError::Fault(wrong));
        };
        if text == "parent" {
            return Ok(Order::ParentFirst);
        }
        if text == "child" {
            return Ok(Order::ChildFirst);
        }
        Err(ConfigError::Fault(wrong))
    }
}
