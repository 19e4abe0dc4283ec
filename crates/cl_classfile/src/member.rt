//! Fields and methods (JVMS SE 8, 4.5, 4.6).

ghost use Rattle.std.specs.Prelude.{◌≡◌};
ghost use Rattle.std.specs.List.{list_all};
ghost use Rattle.cl_classfile.specs.Widths.{all_fit, attribute_fits, member_fits};

use crate::attribute::Attribute;
use crate::limits::MOST_COUNTED;
use std::marker::Model;

/// A field or a method (JVMS SE 8, 4.5, 4.6).
#[derive(Debug, Drop)]
pub struct Member {
    flags: u16,
    name_index: u16,
    descriptor_index: u16,
    attributes: Vec<Attribute>,
}

impl Model for Member {
    ghost use Rattle.cl_classfile.specs.Structure as structure;

    ghost Value = { structure.MemberInfo };

    ghost view = { λ m. record {
      flags = m.flags;
      name_index = m.name_index;
      descriptor_index = m.descriptor_index;
      attributes = m.attributes.items;
    } };
}

/// Whether a count can say how many attributes there are, and each fits its widths.
pub fn attributes_fit(attributes: &[Attribute]) -> bool
    ensures { result ≡ all_fit attribute_fits attributes.now }
{
    attributes.len() <= MOST_COUNTED && each_fits(attributes)
}

fn each_fits(attributes: &[Attribute]) -> bool
    ensures { result ≡ list_all attribute_fits attributes.now }
{
    attributes.iter().all(|attribute| attribute.fits())
}

impl Member {
    /// The member of these parts, of whose attributes a file can hold 65,535.
    pub fn new(
        flags: u16,
        name_index: u16,
        descriptor_index: u16,
        attributes: Vec<Attribute>,
    ) -> Member
        ensures { result ≡ record {
          flags = flags;
          name_index = name_index;
          descriptor_index = descriptor_index;
          attributes = attributes.items;
        } }
    {
        Member {
            flags,
            name_index,
            descriptor_index,
            attributes,
        }
    }

    /// Its flags (tables 4.5-A, 4.6-A).
    pub fn flags(&self) -> u16
        ensures { result ≡ self.now.flags }
    {
        self.flags
    }

    /// The index of its name.
    pub fn name_index(&self) -> u16
        ensures { result ≡ self.now.name_index }
    {
        self.name_index
    }

    /// The index of its descriptor.
    pub fn descriptor_index(&self) -> u16
        ensures { result ≡ self.now.descriptor_index }
    {
        self.descriptor_index
    }

    /// Its attributes, in order.
    pub fn attributes(&self) -> &[Attribute]
        ensures { result.now ≡ self.now.attributes }
    {
        self.attributes.as_slice()
    }

    /// Whether each item is such as its width can say.
    pub(crate) fn fits(&self) -> bool
        ensures { result ≡ member_fits self.now }
    {
        // Read for the proof, which has their ranges from there.
        let _flags = self.flags;
        let _name = self.name_index;
        let _descriptor = self.descriptor_index;
        attributes_fit(self.attributes.as_slice())
    }
}
