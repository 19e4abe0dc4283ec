//! Attributes (JVMS SE 8, 4.7).

ghost use Rattle.std.specs.Prelude.{◌≡◌, IfOk};
ghost use Rattle.cl_classfile.specs.Widths.{attribute_fits};

use std::alloc::{AllocError, Global};
use std::marker::Model;

/// An attribute, of which nothing but its length is looked at (JVMS SE 8, 4.7).
#[derive(Debug, Drop)]
pub struct Attribute {
    name_index: u16,
    bytes: Vec<u8>,
}

impl Model for Attribute {
    ghost use Rattle.cl_classfile.specs.Structure as structure;

    ghost Value = { structure.Attribute };

    ghost view = { λ a. record { name_index = a.name_index; bytes = a.bytes.items } };
}

impl Attribute {
    /// The attribute of this name and these bytes, of which a file can hold 4,294,967,295.
    pub fn new(name_index: u16, bytes: Vec<u8>) -> Attribute
        ensures { result ≡ record { name_index = name_index; bytes = bytes.items } }
    {
        Attribute { name_index, bytes }
    }

    /// The attribute with a copy of these bytes.
    pub(crate) fn copy_of(
        alloc: Global,
        name_index: u16,
        bytes: &[u8],
    ) -> Result<Attribute, AllocError>
        ensures { IfOk result (λ a. a ≡ record { name_index = name_index; bytes = bytes.now }) }
    {
        let bytes = Vec::from_slice(alloc, bytes)?;
        Ok(Attribute { name_index, bytes })
    }

    /// Whether each item is such as its width can say.
    pub(crate) fn fits(&self) -> bool
        ensures { result ≡ attribute_fits self.now }
    {
        // Read for the proof, which has its range from there.
        let _name = self.name_index;
        self.bytes.len() <= u32::MAX as usize
    }

    /// The index of its name.
    pub fn name_index(&self) -> u16
        ensures { result ≡ self.now.name_index }
    {
        self.name_index
    }

    /// What it holds.
    pub fn bytes(&self) -> &[u8]
        ensures { result.now ≡ self.now.bytes }
    {
        self.bytes.as_slice()
    }
}
