//! Further worked examples, computed from the definitions.

ghost use Rattle.std.specs.Prelude.{◌≡◌, ◌∷◌, [], Some, codes};
ghost use Rattle.cl_model.specs.Classes.{IllegalAccess, IncompatibleClassChange};
ghost use Rattle.cl_model.specs.States.{IsField, IsMethod, Linkage, Wrong};
ghost use Rattle.cl_model.specs.Machine.{MayConstrain, MayDefine, MayPrepare};
ghost use Rattle.cl_model.specs.Examples.{app, boot, kid, plug, the_root, in_app, in_plug, an_int, taking_none, load_of, root_for, same_t, Costs, LinkNeeds, ResolveNeeds, ResolvesTo};
ghost use Rattle.cl_model.specs.ExampleLoads.{bad, diamond};
ghost use Rattle.cl_model.specs.Homes.{ChildFirst, ParentFirst};
ghost use Rattle.cl_model.specs.Probes.{probes};
ghost use Rattle.cl_model.specs.ExampleReferences.{nearest, three_users, from_b};
ghost use Rattle.cl_model.specs.ExampleOverriding.{through_kid};
ghost use Rattle.cl_model.specs.ExampleRuns.{AnswerIs, both_users_defined, interface_unprepared, of_use, over, root_in_app, root_in_plug};

/// What a class declares comes first, and the superclass of a superinterface before the next one.
pub fn nearest_first()
    ensures method { from_b 1 ≡ Some (IsMethod (in_plug "q/B") (taking_none "m")) }
    ensures field { from_b 2 ≡ Some (IsField (in_plug "q/B") (an_int "y")) }
    ensures above_interface { from_b 3 ≡ Some (IsField the_root (an_int "x")) }
    ensures of_interface { from_b 4 ≡ Some (IsMethod (in_plug "q/I") (taking_none "h")) }
{}

/// A private member is its class's alone, through a subclass too; a protected one of Object is open
/// to interfaces. Nothing is made equal for what is not accessible, and the kind of the class is
/// told before the member is looked for.
pub fn checks_in_order()
    ensures private_method { from_b 5 ≡ Some (Wrong (IllegalAccess (in_plug "q/A"))) }
    ensures needs { ResolveNeeds nearest plug "q/B" 6 (root_for plug) }
    ensures kind { from_b 7 ≡ Some (Wrong (IncompatibleClassChange (in_plug "q/I"))) }
    ensures from_interface { ResolvesTo nearest plug "q/J" 1 (IsMethod the_root (taking_none "f")) }
{}

/// Constructors and `<clinit>` impose nothing, those of superinterfaces neither.
pub fn no_constructor_imposes()
    ensures { LinkNeeds nearest plug "q/B" [] }
{}

/// What has no file has no supertypes that cost anything.
pub fn bad_file_costs()
    ensures { Costs bad (load_of kid "p/B") 13 }
{}

/// An equality is refused for what a third loader records, which is joined with one of the two.
pub fn refused_through_third()
    ensures { AnswerIs three_users both_users_defined (of_use kid) (Linkage (same_t app kid)) }
{}

/// A superinterface is waited for as the superclass is; only a recorded class imposes equalities.
pub fn classes_too_early()
    ensures define { MayDefine (over through_kid) root_in_app (in_app "p/R") → ⊥ }
    ensures prepare { MayPrepare (over through_kid) interface_unprepared (in_app "p/R") → ⊥ }
    ensures constrain { MayConstrain (over nearest) root_in_plug (codes "p/T") boot plug → ⊥ }
{}

/// Parents are asked in order, each with all above it, and no loader again.
pub fn parents_in_order()
    ensures first { probes (diamond ParentFirst (1 ∷ 2 ∷ [])) 3 (codes "p/X")
        ≡ 0 ∷ 1 ∷ 2 ∷ 3 ∷ [] }
    ensures turned { probes (diamond ParentFirst (2 ∷ 1 ∷ [])) 3 (codes "p/X")
        ≡ 0 ∷ 2 ∷ 1 ∷ 3 ∷ [] }
    ensures child_first { probes (diamond ChildFirst (1 ∷ 2 ∷ [])) 3 (codes "p/X")
        ≡ 3 ∷ 0 ∷ 1 ∷ 2 ∷ [] }
{}
