//! What a method imposes where it stands for another (JVMS SE 8, 5.3.4, 5.4.2).

ghost use Rattle.std.specs.Prelude.{◌≡◌, ◌++◌, IfOk, OnOk};
ghost use Rattle.cl_model.specs.Preparation.{class_names, equals_of};
ghost use Rattle.cl_hierarchy.specs.Imposed.{needs_of};

use crate::key::MethodKey;
use cl_hierarchy::equality;
use cl_model::{Equality, LoaderId};
use cl_names::Name;
use std::alloc::{AllocError, Global};
use std::marker::Model;

/// A method's key, with the classes that its descriptor names.
pub(crate) struct Described {
    key: MethodKey,
    names: Vec<Name>,
}

impl Drop for Described {
    fn drop(self) {
        let Described { key: _, names: _ } = self;
    }
}

impl Model for Described {
    ghost use Rattle.std.specs.Prelude.{◌≡◌};
    ghost use Rattle.cl_classfile.specs.Files.{Key};
    ghost use Rattle.cl_model.specs.Preparation.{class_names};

    ghost Value = { Key };

    ghost view = { λ d. d.key };

    ghost invariant = { λ d. d.names.items ≡ class_names d.key.descriptor };
}

impl Described {
    /// The key with what its descriptor names.
    pub fn of(alloc: Global, key: &MethodKey) -> Result<Described, AllocError>
        ensures { IfOk result (λ d. d ≡ key.now) }
    {
        Ok(Described {
            names: key.class_names(alloc)?,
            key: key.try_clone(alloc)?,
        })
    }

    /// The key.
    pub fn key(&self) -> &MethodKey
        ensures { result.now ≡ self.now }
    {
        &self.key
    }

    /// The classes that the descriptor names, the return type first.
    fn names(&self) -> &[Name]
        ensures { result.now ≡ class_names self.now.descriptor }
    {
        self.names.as_slice()
    }
}

/// Adds an equality for each class that the method's descriptor names, the lesser loader first (JVMS SE 8, 5.3.4, 5.4.2).
#[tactic(auto, using(crate::proofs::Constraints::pushed_all))]
pub(crate) fn push_equals(
    alloc: Global,
    needs: &mut Vec<Equality>,
    method: &Described,
    a: LoaderId,
    b: LoaderId,
) -> Result<(), AllocError>
    ensures { OnOk result (needs_of needs.new.items ≡ needs_of needs.old.items ++ equals_of
        method.now a b) }
{
    for name in method.names() {
        let name = name.try_clone(alloc)?;
        needs.push(equality(name, a, b))?;
    }
    Ok(())
}
