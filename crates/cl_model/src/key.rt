ghost use Rattle.std.specs.Prelude.{◌≡◌, ◌++◌, string_bytes, IfOk, OnOk, IsSome};
ghost use Rattle.cl_names.specs.Truth.{Decides};
ghost use Rattle.std.specs.Prelude.{nat_eq};
ghost use Rattle.std.specs.Ordering.{eq_of_both, on};
ghost use Rattle.std.specs.Cmp.Lexicographic.{pointwise, nat_list_eq_equiv};
ghost use Rattle.cl_model.specs.Lines.{key_texts, spelling_of, words};

use cl_names::Name;
use std::alloc::{AllocError, Global};
use std::marker::Model;

/// What a member is looked up by: its name and its descriptor, whose bytes copies share (JVMS SE 8, 5.4.3).
#[derive(Debug, Drop)]
pub struct MemberKey {
    name: Name,
    descriptor: Name,
}

impl Model for MemberKey {
    ghost use Rattle.std.specs.Prelude.{IsSome};
    ghost use Rattle.cl_classfile.specs.Files.{Key};
    ghost use Rattle.cl_model.specs.Keys.{key_of, descriptor_of};

    ghost Value = { Key };

    ghost view = { λ k. key_of k.name k.descriptor };

    ghost invariant = { λ k. IsSome (descriptor_of k.descriptor) };
}

impl PartialEq for MemberKey {
    ghost use Rattle.std.specs.Cmp.{and_equiv, on_equiv, partial_equiv_from_equiv};

    ghost eq = { eq_of_both (on (λ k. k.name) (pointwise nat_eq)) (on (λ k. spelling_of
        k.descriptor) (pointwise nat_eq)) };

    ghost laws = { partial_equiv_from_equiv (and_equiv (on_equiv (λ k. k.name) nat_list_eq_equiv)
        (on_equiv (λ k. spelling_of k.descriptor) nat_list_eq_equiv)) };

    #[tactic(auto, using(crate::proofs::Keys::spelled_again))]
    fn eq(&self, other: &MemberKey) -> bool {
        self.name == other.name && self.descriptor == other.descriptor
    }
}

impl Eq for MemberKey {
    ghost use Rattle.std.specs.Cmp.{and_equiv, on_equiv};

    ghost laws = { and_equiv (on_equiv (λ k. k.name) nat_list_eq_equiv) (on_equiv (λ k. spelling_of
        k.descriptor) nat_list_eq_equiv) };
}

impl MemberKey {
    ghost use Rattle.cl_model.specs.Keys.{key_of, descriptor_of};

    /// The key of this name and this descriptor of a field or of a method.
    pub fn new(alloc: Global, name: &Name, descriptor: &Name) -> Result<MemberKey, AllocError>
        requires { IsSome (descriptor_of descriptor.now) }
        ensures { IfOk result (λ k. k ≡ key_of name.now descriptor.now) }
    {
        Ok(MemberKey {
            name: name.try_clone(alloc)?,
            descriptor: descriptor.try_clone(alloc)?,
        })
    }

    /// The member's name.
    pub fn name(&self) -> &Name
        ensures { result.now ≡ self.now.name }
    {
        &self.name
    }

    /// The text of its descriptor (JVMS SE 8, 4.3).
    #[tactic(auto, using(crate::proofs::Keys::spelled_again))]
    pub fn descriptor(&self) -> &Name
        ensures { result.now ≡ spelling_of self.now.descriptor }
    {
        &self.descriptor
    }

    /// Whether the other is the same.
    pub fn is_same(&self, other: &MemberKey) -> bool
        ensures { Decides result (self.now ≡ other.now) }
    {
        self.name == other.name && self.descriptor == other.descriptor
    }

    /// Puts its text behind the text: the name and the descriptor.
    pub fn put_text(&self, text: &mut String) -> Result<(), AllocError>
        ensures { OnOk result (string_bytes text.new ≡ string_bytes text.old
            ++ words (key_texts self.now)) }
    {
        self.name.put_text(text)?;
        text.push_str(" ")?;
        self.descriptor.put_text(text)
    }

    /// A copy, which shares the bytes.
    pub fn try_clone(&self, alloc: Global) -> Result<MemberKey, AllocError>
        ensures { IfOk result (λ k. k ≡ self.now) }
    {
        MemberKey::new(alloc, &self.name, &self.descriptor)
    }
}
