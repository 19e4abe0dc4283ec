//! One text of all loaders.

ghost use Rattle.std.specs.Prelude.{◌≡◌, ◌++◌, IfOk, OnOk};
ghost use Rattle.cl_config.specs.Flat.{flat_list, flat_number, flat_order, flat_import, flat_loader, flat_of};

use crate::loader::{Import, Loader};
use crate::order::Order;
use cl_model::LoaderId;
use std::alloc::{AllocError, Global};

/// What is written into the text.
pub trait Flat {
    ghost use Rattle.std.specs.Prelude.{ℕ, List};

    /// The text of this alone.
    ghost flat: { Self → List ℕ };

    /// Puts its text behind what stands.
    fn put(&self, text: &mut Vec<u16>) -> Result<(), AllocError>
        ensures { OnOk result (text.new.items ≡ text.old.items ++ flat self.now) };
}

/// Puts the text of a list behind what stands.
fn put_list<T: Flat>(items: &[T], text: &mut Vec<u16>) -> Result<(), AllocError>
    ensures { OnOk result (text.new.items ≡ text.old.items ++ flat_list T.flat items.now) }
{
    for item in items {
        text.push(1)?;
        item.put(text)?;
    }
    text.push(0)?;
    Ok(())
}

impl Flat for u8 {
    ghost flat = { flat_number };

    fn put(&self, text: &mut Vec<u16>) -> Result<(), AllocError> {
        text.push(u16::from(*self))?;
        Ok(())
    }
}

impl Flat for LoaderId {
    ghost flat = { flat_number };

    fn put(&self, text: &mut Vec<u16>) -> Result<(), AllocError> {
        text.push(self.0)?;
        Ok(())
    }
}

impl Flat for Order {
    ghost flat = { flat_order };

    fn put(&self, text: &mut Vec<u16>) -> Result<(), AllocError> {
        text.push(match self {
            Order::ParentFirst => 0,
            Order::ChildFirst => 1,
        })?;
        Ok(())
    }
}

impl Flat for Import {
    ghost flat = { flat_import };

    fn put(&self, text: &mut Vec<u16>) -> Result<(), AllocError> {
        put_list(self.prefix().bytes(), text)?;
        self.target().put(text)
    }
}

impl Flat for Loader {
    ghost flat = { flat_loader };

    fn put(&self, text: &mut Vec<u16>) -> Result<(), AllocError> {
        put_list(self.name().as_bytes(), text)?;
        put_list(self.dir().as_bytes(), text)?;
        put_list(self.parents(), text)?;
        self.order().put(text)?;
        put_list(self.imports(), text)
    }
}

/// The text of all loaders.
pub(crate) fn flat_of(alloc: Global, loaders: &[Loader]) -> Result<Vec<u16>, AllocError>
    ensures { IfOk result (λ t. t.items ≡ flat_of (record { loaders = loaders.now })) }
{
    let mut text = Vec::new(alloc);
    put_list(loaders, &mut text)?;
    Ok(text)
}
