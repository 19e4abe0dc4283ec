//! Lists of loading constraints (JVMS SE 8, 5.3.4, 5.4.2, 5.4.3).

ghost use Rattle.std.specs.Prelude.{◌≡◌};
ghost use Rattle.cl_model.specs.Preparation.{constraints_of, equal_between};
ghost use Rattle.cl_hierarchy.specs.Imposed.{AreOfReference, IsListed, OfPreparation, OfReference, equal_need, needs_of, sprung};
ghost use Rattle.cl_hierarchy.specs.Lineages.{kin_of};

use crate::lineage::Lineage;
use cl_model::{Equality, LoaderId, Told};
use cl_names::Name;
use std::marker::Model;

/// That two loaders have the same class of a name, the lesser loader first (JVMS SE 8, 5.3.4).
pub fn equality(name: Name, one: LoaderId, other: LoaderId) -> Equality
    ensures { equal_need result ≡ equal_between name one other }
{
    if one.0 <= other.0 {
        Equality { name, one, other }
    } else {
        Equality {
            name,
            one: other,
            other: one,
        }
    }
}

/// What a list of equalities was made from.
pub enum Origin<T: Told> {
    /// The member reference of `d` at this index of its constant pool, which names the class `c` (JVMS SE 8, 5.4.3).
    Reference {
        d: Lineage<T>,
        c: Lineage<T>,
        index: u16,
    },
    /// The preparation of a class (JVMS SE 8, 5.4.2).
    Preparation {
        lineage: Lineage<T>,
    },
}

impl<T: Told> Drop for Origin<T> {
    fn drop(self) {
        match self {
            Origin::Reference {
                d: _,
                c: _,
                index: _,
            } => {}
            Origin::Preparation { lineage: _ } => {}
        }
    }
}

/// The equalities that a reference or a preparation asks for, in order.
pub struct Equalities<T: Told> {
    needs: Vec<Equality>,
    origin: Origin<T>,
}

impl<T: Told> Drop for Equalities<T> {
    fn drop(self) {
        let Equalities {
            needs: _,
            origin: _,
        } = self;
    }
}

impl<T: Told> Model for Equalities<T> {
    ghost use Rattle.cl_hierarchy.specs.Imposed.{IsListed, Listed, sprung};

    ghost Value = { Listed };

    ghost view = { λ e. record { needs = e.needs.items; origin = sprung e.origin } };

    ghost invariant = { λ e. IsListed T.told (record {
      needs = e.needs.items;
      origin = sprung e.origin;
    }) };
}

impl<T: Told> Equalities<T> {
    /// Those of the member reference of `d` at this index, which names the class `c`.
    pub fn of_reference(
        d: Lineage<T>,
        c: Lineage<T>,
        index: u16,
        needs: Vec<Equality>,
    ) -> Equalities<T>
        requires { AreOfReference (kin_of d) (kin_of c) index (needs_of needs.items) }
        ensures { result ≡ record {
          needs = needs.items;
          origin = OfReference d c index;
        } }
    {
        // brings what the lineages keep
        let _ = d.class();
        let _ = c.class();
        let origin = Origin::Reference { d, c, index };
        Equalities { needs, origin }
    }

    /// Those of the preparation of a class.
    pub fn of_preparation(lineage: Lineage<T>, needs: Vec<Equality>) -> Equalities<T>
        requires { needs_of needs.items ≡ constraints_of (kin_of lineage) }
        ensures { result ≡ record { needs = needs.items; origin = OfPreparation lineage } }
    {
        // brings what the lineage keeps
        let _ = lineage.class();
        let origin = Origin::Preparation { lineage };
        Equalities { needs, origin }
    }

    /// The equalities, in order.
    pub fn needs(&self) -> &[Equality]
        ensures needs { result.now ≡ self.now.needs }
        ensures kept { IsListed T.told self.now }
    {
        self.needs.as_slice()
    }

    /// What they were made from.
    pub fn origin(&self) -> &Origin<T>
        ensures origin { sprung result.now ≡ self.now.origin }
        ensures kept { IsListed T.told self.now }
    {
        &self.origin
    }
}
