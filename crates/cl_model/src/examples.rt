//! Worked examples, computed from the definitions.

ghost use Rattle.std.specs.Prelude.{◌≡◌, ◌∷◌, ◌++◌, [], Some, None, Err, codes};
ghost use Rattle.cl_model.specs.Homes.{home};
ghost use Rattle.cl_model.specs.Classes.{read_class, ClassNotFound, NoClassDef, ClassFormat, UnsupportedVersion, ClassCircularity, IncompatibleClassChange, IllegalAccess, NoSuchField, NoSuchMethod};
ghost use Rattle.cl_model.specs.States.{State, Joined, Entry, IsClass, IsArrayOf, IsArrayOfBase, IsField, IsMethod, IsLinked, Wrong, BadEntry, ArrayMember, Linkage, Said, OutOfMemory, SourceFault, start, settled_to, answer_to, recorded_definer, IsNext};
ghost use Rattle.cl_model.specs.Machine.{Define, Initiate, Constrain, Settle, Prepare, Post, NextRound, Stray, May, MayDefine, MayInitiate, MayConstrain, MaySettle, MayPrepare, Run, MayPost, MayGoOn, after};
ghost use Rattle.cl_model.specs.Lines.{line};
ghost use Rattle.cl_model.specs.Examples.{boot, app, plug, kid, fifth, object, names, the_root, in_boot, in_app, in_plug, in_kid, in_fifth, taking_none, taking_t, an_int, an_array, int_letter, long_letter, load_of, resolve_of, link_of, entry, own, root_record, root_for, through_app, equal, same_t, same_v, same_both, ends_at, all_needs, HasBytes, Loads, LoadFails, LoadNeeds, ResolvesTo, ResolveNeeds, Links, LinkNeeds, Costs};
ghost use Rattle.cl_model.specs.ExampleLoads.{copies, twice, bad, circle, missing, importing, imports, misfits, two_parents};
ghost use Rattle.cl_model.specs.Lineages.{lineage, superclasses, superinterfaces};
ghost use Rattle.cl_model.specs.ExampleLookups.{chosen_method, lookup, from_d, from_r, Orders};
ghost use Rattle.cl_model.specs.ExampleReferences.{service, three_users, hidden, arrays, from_u, NeedsPast};
ghost use Rattle.cl_model.specs.ExampleOverriding.{overriding, declared, through_kid, whole_lineage, three_loaders, packages};
ghost use Rattle.cl_model.specs.ExampleRuns.{over, standing_after, AnswerIs, of_use, t_refused, kid_refused, both_defined, both_stand, constrained, across, in_rounds, two_rounds, serving, loading, resolving, linking, of_svc, unsettled, unprepared, unconstrained, end_state, resolved_in_kid, overridden_alone, below_hidden, joined_with_kid};
ghost use Rattle.cl_model.specs.ExampleTexts.{spaced, Prints, IsCalled, PrintsAnswer, PrintsLine, PrintsStep};

/// A search goes to the parent first, or to the own content first; a `java/` name is searched in
/// the first loader alone; what an import takes hides the own content.
pub fn probe_order()
    // By the order of a loader; the platform's names.
    ensures parent_first { home copies kid (codes "p/T") ≡ Some app }
    ensures child_first { home copies plug (codes "p/T") ≡ Some plug }
    ensures platform { home copies plug object ≡ Some boot }
    // Where nothing is found.
    ensures absent { home copies kid (codes "p/X") ≡ None }
    ensures no_loader { home copies fifth object ≡ None }
    // By imports.
    ensures imported { home importing fifth (codes "q/X") ≡ Some boot }
    ensures hidden { home importing fifth (codes "q/Y") ≡ None }
    ensures not_imported { home importing fifth (codes "p/T") ≡ Some fifth }
    // With two parents.
    ensures first_parent { home two_parents fifth (codes "p/T") ≡ Some app }
    ensures second_parent { home two_parents fifth (codes "p/V") ≡ Some plug }
    ensures platform_prefix { home two_parents app (codes "javax/T") ≡ Some app }
{}

/// Of several entries for one loader and name the first counts; what a search does not find at a
/// loader is no class of it, though its content has the name.
pub fn told_bytes()
    ensures first_entry { HasBytes twice app "p/T" (7 ∷ []) }
    ensures other_loader { HasBytes twice plug "p/T" (3 ∷ []) }
    ensures not_at_home { read_class importing (in_fifth "q/Y")
        ≡ Err (NoClassDef (in_fifth "q/Y")) }
{}

/// The first import whose prefix begins the name decides, and never of a `java/` name; bytes that
/// name another class, and bytes of another version, are the answer of their home.
pub fn first_import_decides()
    ensures first { LoadFails imports fifth "p/T" (ClassNotFound (in_fifth "p/T")) }
    ensures platform { LoadFails imports fifth "java/x/Y" (ClassNotFound (in_fifth "java/x/Y")) }
    ensures other_name { LoadFails imports fifth "q/B" (NoClassDef (in_app "q/B")) }
    ensures version { LoadFails imports fifth "q/V" (UnsupportedVersion (in_app "q/V")) }
{}

/// The root class.
pub fn object_bundle()
    ensures needs { LoadNeeds copies boot "java/lang/Object" (root_record boot ∷ []) }
    ensures ends { Loads copies boot "java/lang/Object" (IsClass the_root) }
    ensures cost { Costs copies (load_of boot "java/lang/Object") 10 }
{}

/// Two loaders each define a class of one name.
pub fn two_copies()
    ensures plug { LoadNeeds copies plug "p/T" (root_for plug ++ own plug "p/T" ∷ []) }
    ensures app { LoadNeeds copies app "p/T" (root_for app ++ own app "p/T" ∷ []) }
    ensures in_plug { Loads copies plug "p/T" (IsClass (in_plug "p/T")) }
    ensures in_app { Loads copies app "p/T" (IsClass (in_app "p/T")) }
{}

/// A bad file is the answer: a later loader that has a good one is not asked.
pub fn bad_file_decides()
    ensures needs { LoadNeeds bad kid "p/B" [] }
    ensures ends { LoadFails bad kid "p/B" (ClassFormat (in_app "p/B")) }
{}

/// A circle is the error of the class that is met again, from wherever it is entered.
pub fn class_circle()
    ensures first { LoadFails circle app "p/A" (ClassCircularity (in_app "p/A")) }
    ensures second { LoadFails circle app "p/B" (ClassCircularity (in_app "p/B")) }
    ensures below { LoadFails circle app "p/C" (ClassCircularity (in_app "p/A")) }
    ensures needs { LoadNeeds circle app "p/C" [] }
{}

/// The error of the first supertype is the answer, after the needs of those before it.
pub fn first_supertype_error()
    ensures needs { LoadNeeds missing app "p/A" (root_for app) }
    ensures ends { LoadFails missing app "p/A" (NoClassDef (in_app "p/I")) }
{}

/// A supertype has to be accessible, and of the kind that its role asks for; access is told first.
pub fn supertypes_fit()
    ensures inaccessible { LoadFails misfits plug "p/K" (IllegalAccess (in_app "p/H")) }
    ensures interface_above { LoadFails misfits app "p/L" (IncompatibleClassChange (in_app "p/J")) }
    ensures implemented { LoadFails misfits app "p/N" (IncompatibleClassChange (in_app "p/S")) }
    ensures access_first { LoadFails misfits plug "p/G" (IllegalAccess (in_app "p/X")) }
    ensures loaded_before { LoadNeeds misfits plug "p/K" (through_app "p/H") }
{}

/// A class of package access is not accessible from a package of another loader; it is loaded all
/// the same.
pub fn hidden_class()
    ensures referred { ResolvesTo hidden plug "p/Peek" 1 (Wrong (IllegalAccess (in_app "p/Hid"))) }
    ensures loaded { Loads hidden plug "p/Hid" (IsClass (in_app "p/Hid")) }
{}

/// A field is found in a superinterface before the superclass. Of two superinterface methods with
/// bodies neither is the one, so the first that is offered is found, as where none has a body; one
/// with a body is found.
pub fn maximally_specific()
    ensures field { chosen_method 1 ≡ Some (IsField (in_app "p/I") (an_int "x")) }
    ensures second_interface { chosen_method 7 ≡ Some (IsField (in_app "p/I") (an_int "x")) }
    ensures two { chosen_method 2 ≡ Some (IsMethod (in_app "p/J3") (taking_none "m")) }
    ensures one { chosen_method 3 ≡ Some (IsMethod (in_app "p/J1") (taking_none "m")) }
    ensures of_interface { chosen_method 4 ≡ Some (IsMethod (in_app "p/J1") (taking_none "m")) }
    ensures of_class { chosen_method 5 ≡ Some (Wrong (IncompatibleClassChange (in_app "p/D"))) }
    ensures none { chosen_method 6 ≡ Some (IsMethod (in_app "p/J3") (taking_none "m")) }
    ensures silent { chosen_method 8 ≡ Some (IsMethod (in_app "p/J1") (taking_none "m")) }
{}

/// A lineage has the superclass's first, then that of each superinterface in file order, then the class; the superinterfaces
/// stand in file order, each before its own.
pub fn orders_of_ancestors()
    ensures lineage { Orders lineage "p/D" (
        the_root ∷ in_app "p/J3" ∷ in_app "p/J1" ∷ in_app "p/J2" ∷ in_app "p/D" ∷ []) }
    ensures superinterfaces { Orders superinterfaces "p/D" (
        in_app "p/J3" ∷ in_app "p/J1" ∷ in_app "p/J2" ∷ []) }
    ensures superclasses { Orders superclasses "p/C" (in_app "p/S" ∷ the_root ∷ []) }
    ensures own_superinterfaces { Orders superinterfaces "p/F" (
        in_app "p/J3" ∷ in_app "p/J4" ∷ []) }
    ensures interface_first { Orders lineage "p/J4" (
        the_root ∷ in_app "p/J3" ∷ in_app "p/J4" ∷ []) }
{}

/// A method of a class is looked up in the superclasses and then in the superinterfaces, those of
/// superclasses too, of which the most specific counts; private and static ones are not offered.
pub fn methods_of_classes()
    // Where a method is found.
    ensures of_superclass_interface { lookup 1 ≡ Some (IsMethod (in_app "p/J") (taking_none "m")) }
    ensures of_superclass { lookup 2 ≡ Some (IsMethod (in_app "p/S") (taking_none "a")) }
    ensures first_offered { lookup 4 ≡ Some (IsMethod (in_app "p/M") (taking_none "n")) }
    ensures first_of_superclass { lookup 17 ≡ Some (IsMethod (in_app "p/M") (taking_none "n")) }
    // Where none is.
    ensures private_method { lookup 5 ≡ Some (Wrong (NoSuchMethod (in_app "p/C"))) }
    ensures static_method { lookup 6 ≡ Some (Wrong (NoSuchMethod (in_app "p/C"))) }
    ensures absent { lookup 12 ≡ Some (Wrong (NoSuchMethod (in_app "p/C"))) }
    // The most specific of several.
    ensures most_specific { lookup 14 ≡ Some (IsMethod (in_app "p/J") (taking_none "m")) }
{}

/// A field is looked up in the superclass too.
pub fn fields_of_classes()
    ensures of_superclass { lookup 3 ≡ Some (IsField (in_app "p/S") (an_int "y")) }
    ensures absent { lookup 13 ≡ Some (Wrong (NoSuchField (in_app "p/C"))) }
{}

/// An interface's method is looked up in it, among the public ones of the root, and in its
/// superinterfaces; a class's method is asked of no interface.
pub fn methods_of_interfaces()
    ensures of_superinterface { lookup 7 ≡ Some (IsMethod (in_app "p/J") (taking_none "m")) }
    ensures of_root { lookup 8 ≡ Some (IsMethod the_root (taking_none "h")) }
    ensures own { lookup 9 ≡ Some (IsMethod (in_app "p/I") (taking_none "f")) }
    ensures not_protected_of_root { lookup 10 ≡ Some (IsMethod (in_app "p/I") (taking_none "f")) }
    ensures not_static_of_root { lookup 15 ≡ Some (Wrong (NoSuchMethod (in_app "p/K"))) }
    ensures root_before_superinterfaces { lookup 16 ≡ Some (IsMethod the_root (taking_none "e")) }
    ensures as_class { lookup 11 ≡ Some (Wrong (IncompatibleClassChange (in_app "p/K"))) }
{}

/// A protected member is open to subclasses, through classes of their own line; a static one
/// through any; one of package access to its package, a private one to its class.
pub fn access_from_another_package()
    // Protected members of a superclass.
    ensures of_superclass { from_d 1 ≡ Some (IsMethod (in_app "p/P") (taking_none "m")) }
    ensures own { from_d 2 ≡ Some (IsMethod (in_app "p/P") (taking_none "m")) }
    ensures of_subclass { from_d 3 ≡ Some (IsMethod (in_app "p/P") (taking_none "m")) }
    ensures of_other_line { from_d 4 ≡ Some (Wrong (IllegalAccess (in_app "p/P"))) }
    ensures static_of_other_line { from_d 5 ≡ Some (IsMethod (in_app "p/P") (taking_none "s")) }
    // Members of package access, and private ones.
    ensures of_package { from_d 6 ≡ Some (Wrong (IllegalAccess (in_app "p/P"))) }
    ensures private_method { from_d 7 ≡ Some (Wrong (IllegalAccess (in_app "p/P"))) }
    ensures own_private { from_d 8 ≡ Some (IsMethod (in_app "q/D") (taking_none "w")) }
    // Protected members of a class that is no superclass.
    ensures of_stranger { from_d 9 ≡ Some (Wrong (IllegalAccess (in_app "p/R"))) }
    ensures static_of_stranger { from_d 10 ≡ Some (Wrong (IllegalAccess (in_app "p/R"))) }
    ensures hidden_owner { from_d 11 ≡ Some (IsMethod (in_app "p/H") (taking_none "h")) }
{}

/// Within a package all but the private members are accessible, also through classes of another.
pub fn access_within_a_package()
    ensures of_package { from_r 1 ≡ Some (IsMethod (in_app "p/P") (taking_none "k")) }
    ensures private_method { from_r 2 ≡ Some (Wrong (IllegalAccess (in_app "p/P"))) }
    ensures protected_below { from_r 3 ≡ Some (IsMethod (in_app "p/P") (taking_none "m")) }
    ensures protected { from_r 4 ≡ Some (IsMethod (in_app "p/P") (taking_none "m")) }
{}

/// How references end, and the equalities of a found member's class with the class that names it.
pub fn references_of_a_class()
    ensures field { from_u 1 ≡ Some (IsField (in_app "p/F") (an_array "x")) }
    ensures method { from_u 2 ≡ Some (IsMethod (in_app "p/F") (taking_t "m")) }
    ensures no_class { from_u 3 ≡ Some (Wrong (NoClassDef (in_plug "p/Z"))) }
    ensures hidden { from_u 4 ≡ Some (Wrong (IllegalAccess (in_app "p/H"))) }
    ensures through_subclass { from_u 5 ≡ Some (Wrong (IllegalAccess (in_app "p/P"))) }
    ensures of_base { from_u 6 ≡ Some (IsArrayOfBase 2 long_letter) }
    ensures absent { from_u 7 ≡ Some (Wrong (NoSuchMethod (in_plug "q/G"))) }
{}

/// What the same references need past the load of their class: loads, and where a member is found
/// and accessible the equalities of its class with the class that names it.
pub fn needs_of_references()
    ensures field { NeedsPast 1 (through_app "p/F" ++ same_t app plug ∷ []) }
    ensures method { NeedsPast 2 (through_app "p/F" ++ own plug "q/G" ∷ same_t app plug ∷ []) }
    ensures no_class { NeedsPast 3 [] }
    ensures hidden { NeedsPast 4 (through_app "p/H") }
    ensures through_subclass { NeedsPast 5 (through_app "p/P" ++ own plug "q/X" ∷ []) }
    ensures of_base { NeedsPast 6 [] }
    ensures absent { NeedsPast 7 (through_app "p/F" ++ own plug "q/G" ∷ []) }
{}

/// A method of package access is overridden from another package only through a third method
/// between; an inherited method is made equal with the superinterface that wants it.
pub fn preparation_constraints()
    ensures apart { LinkNeeds overriding plug "q/F" [] }
    ensures through { LinkNeeds overriding plug "q/C" (
        same_t app app ∷ same_t app plug ∷ same_t app plug ∷ []) }
    ensures inherited { LinkNeeds overriding plug "q/E" (same_v app plug ∷ []) }
    ensures linked { Links overriding plug "q/E" (IsLinked (in_plug "q/E")) }
    ensures cost { Costs overriding (link_of plug "q/C") 31 }
{}

/// Private and static methods and constructors take no part; what a class declares is made equal
/// with what it overrides, first in its superclasses, then in its superinterfaces; of an interface
/// with its superinterfaces alone.
pub fn declared_methods()
    ensures implements { LinkNeeds declared plug "q/A" (same_both app plug) }
    ensures of_interface { LinkNeeds declared plug "q/I" (same_both app plug) }
    ensures extends { LinkNeeds declared plug "q/B" (same_both app plug ++ same_both app plug) }
    ensures class_linked { Links declared plug "q/A" (IsLinked (in_plug "q/A")) }
    ensures interface_linked { Links declared plug "q/I" (IsLinked (in_plug "q/I")) }
    ensures subclass_linked { Links declared plug "q/B" (IsLinked (in_plug "q/B")) }
{}

/// What stands above a private method is inherited; what the class declares itself, also a private
/// method, lets nothing be inherited; a superinterface that is met twice counts once.
pub fn inherited_methods()
    ensures private_above { LinkNeeds declared plug "q/D" (same_t app app ∷ []) }
    ensures private_own { LinkNeeds declared plug "q/F" [] }
    ensures of_superclass { LinkNeeds declared plug "q/G" (same_t app plug ∷ same_both app app) }
    ensures each_once { LinkNeeds declared plug "q/K" (
        same_both app plug ++ same_both plug plug ++ same_both app plug ++ same_t boot plug ∷ []) }
    ensures private_above_linked { Links declared plug "q/D" (IsLinked (in_plug "q/D")) }
    ensures private_own_linked { Links declared plug "q/F" (IsLinked (in_plug "q/F")) }
    ensures linked { Links declared plug "q/G" (IsLinked (in_plug "q/G")) }
{}

/// The inherited method and the superinterface are of two loaders, neither the class's own; an
/// interface inherits none; a superinterface counts that only the superclass names.
pub fn inherited_across_loaders()
    ensures of_class { LinkNeeds through_kid kid "r/C" (same_t boot app ∷ []) }
    ensures of_interface { LinkNeeds through_kid kid "r/J" [] }
    ensures named_above { LinkNeeds through_kid kid "r/D" (same_t boot kid ∷ []) }
    ensures class_linked { Links through_kid kid "r/C" (IsLinked (in_kid "r/C")) }
    ensures interface_linked { Links through_kid kid "r/J" (IsLinked (in_kid "r/J")) }
{}

/// A link has the constraints of the whole lineage, supertypes first.
pub fn whole_lineages()
    ensures root_above { LinkNeeds whole_lineage plug "q/J" [] }
    ensures in_order { LinkNeeds whole_lineage plug "q/C" (same_t app plug ∷ same_v app plug ∷ []) }
    ensures interface_linked { Links whole_lineage plug "q/J" (IsLinked (in_plug "q/J")) }
    ensures class_linked { Links whole_lineage plug "q/C" (IsLinked (in_plug "q/C")) }
{}

/// Of what a class overrides the nearest superclass comes first, then the farther ones, then the
/// superinterfaces that declare the method, and last what it inherits for its superinterfaces;
/// static methods, of either side, take no part.
pub fn constraints_in_order()
    ensures declared_and_inherited { LinkNeeds three_loaders plug "q/C" (
        same_t boot app ∷ same_t app plug ∷ same_t boot plug ∷ same_t boot plug
        ∷ same_v boot app ∷ []) }
    ensures below { LinkNeeds three_loaders plug "q/D" (
        same_t boot app ∷ same_t app plug ∷ same_t boot plug ∷ same_t boot plug
        ∷ same_v boot app ∷ same_t boot plug ∷ same_v boot app ∷ []) }
{}

/// Through a third method only where it is overridden itself and overrides the other.
pub fn third_methods()
    ensures third_not_overridden { LinkNeeds packages plug "q/Y" (same_t app app ∷ []) }
    ensures third_not_overriding { LinkNeeds packages plug "q/Z" (same_t app plug ∷ []) }
{}

/// Entries that are no reference, members of arrays, arrays, and a class.
pub fn arrays_and_bad_entries()
    ensures none { ResolvesTo arrays app "p/X" 0 BadEntry }
    ensures past { ResolvesTo arrays app "p/X" 65535 BadEntry }
    ensures member { ResolvesTo arrays app "p/X" 1 ArrayMember }
    ensures member_of_classes { ResolvesTo arrays app "p/X" 4 ArrayMember }
    ensures field_of_classes { ResolvesTo arrays app "p/X" 5 ArrayMember }
    ensures of_class { ResolvesTo arrays app "p/X" 2 (IsArrayOf 2 (in_app "p/T")) }
    ensures plain_class { ResolvesTo arrays app "p/X" 6 (IsClass (in_app "p/T")) }
    ensures of_base { ResolvesTo arrays app "p/X" 3 (IsArrayOfBase 1 int_letter) }
{}

/// The method of Svc in app, resolved from Use in plug: T is to be the same in both loaders.
pub fn resolved_method()
    ensures needs { all_needs service (of_use plug) ≡ Some (
        root_for plug ++ own plug "p/Use" ∷ through_app "p/Svc" ++ same_t app plug ∷ []) }
    ensures ends { ends_at service (of_use plug) ≡ Some of_svc }
    ensures cost { Costs service (of_use plug) 28 }
{}

/// An equality that would join two loaders with different classes is refused: it is the answer.
pub fn equality_refused()
    ensures { AnswerIs service both_defined (of_use plug) t_refused }
{}

/// A record that would differ from that of a joined loader is refused: it is the answer.
pub fn record_refused()
    ensures resolved { AnswerIs service constrained (of_use plug) of_svc }
    ensures loaded { AnswerIs service constrained (load_of app "p/T") (IsClass (in_app "p/T")) }
    ensures refused { AnswerIs service constrained (load_of plug "p/T") (Linkage (own plug "p/T")) }
{}

/// Two loaders that no equality names together are joined through a third.
pub fn constraint_across_three()
    ensures loaded { AnswerIs three_users across (load_of plug "p/T") (IsClass (in_plug "p/T")) }
    ensures refused { AnswerIs three_users across (load_of kid "p/T") kid_refused }
{}

/// The line of each kind of step; a settled reference, a post and a round have none.
#[tactic(auto, unfolding(cl_names::specs::Escape::escaped_text, cl_names::specs::Escape::units_of))]
pub fn printed_steps()
    // Those that have a line.
    ensures define { PrintsStep (Define the_root) "define java/lang/Object@boot" }
    ensures initiate { PrintsStep (Initiate (codes "p/T") app plug) "initiate p/T app by plug" }
    ensures constrain { PrintsStep (Constrain (codes "p/T") app plug) "constrain p/T app plug" }
    ensures prepare { PrintsStep (Prepare (in_app "p/A")) "prepare p/A@app" }
    // Those that have none.
    ensures settle { line names (Settle (in_app "p/A") 1 BadEntry) ≡ None }
    ensures posted { line names (Post 0 OutOfMemory) ≡ None }
    ensures next_round { line names NextRound ≡ None }
    ensures stray { line names Stray ≡ None }
    // A name that is escaped.
    ensures escaped_name { PrintsStep (Define (in_kid "p/A B")) "define p/A\\u0020B@kid" }
{}

/// The text of each kind of verdict that is no error.
#[tactic(auto, unfolding(cl_names::specs::Escape::escaped_text, cl_names::specs::Escape::units_of))]
pub fn printed_verdicts()
    // Classes and arrays.
    ensures of_class { Prints (IsClass (in_plug "p/T")) "class p/T@plug" }
    ensures array { Prints (IsArrayOf 2 (in_app "p/T")) "array 2 p/T@app" }
    ensures base_array { Prints (IsArrayOfBase 1 int_letter) "array 1 I" }
    // Members.
    ensures field { Prints (IsField (in_app "p/F") (an_array "x")) "field p/F@app x [Lp/T;" }
    ensures method { Prints of_svc "method p/Svc@app m (Lp/T;)V" }
    ensures escaped { Prints (IsField (in_app "F") spaced) "field F@app x\\u0020y Lp/A\\u0020B;" }
    // A link.
    ensures linked { Prints (IsLinked (in_plug "q/A")) "linked q/A@plug" }
    // What no reference is resolved to.
    ensures bad_entry { Prints BadEntry "BadEntry" }
    ensures array_member { Prints ArrayMember "ArrayMember" }
    // Refused needs.
    ensures record { Prints (Linkage (entry plug "p/T" app)) "LinkageError record p/T@plug" }
    ensures equality { Prints (Linkage (same_t app plug)) "LinkageError equal p/T app plug" }
{}

/// The text of each error: its name, and the class that it is about.
#[tactic(auto, unfolding(cl_names::specs::Escape::escaped_text, cl_names::specs::Escape::units_of))]
pub fn printed_errors()
    // A whole text.
    ensures whole { Prints (Wrong (ClassNotFound (in_kid "p/T"))) "ClassNotFoundException p/T@kid" }
    // The names.
    ensures not_found { IsCalled ClassNotFound "ClassNotFoundException" }
    ensures no_definition { IsCalled NoClassDef "NoClassDefFoundError" }
    ensures format { IsCalled ClassFormat "ClassFormatError" }
    ensures version { IsCalled UnsupportedVersion "UnsupportedClassVersionError" }
    ensures circle { IsCalled ClassCircularity "ClassCircularityError" }
    ensures misfit { IsCalled IncompatibleClassChange "IncompatibleClassChangeError" }
    ensures access { IsCalled IllegalAccess "IllegalAccessError" }
    ensures field { IsCalled NoSuchField "NoSuchFieldError" }
    ensures method { IsCalled NoSuchMethod "NoSuchMethodError" }
{}

/// The text of each kind of answer, and its line, whose number is counted from 1.
#[tactic(auto, unfolding(cl_names::specs::Escape::escaped_text, cl_names::specs::Escape::units_of))]
pub fn printed_answers()
    ensures said { PrintsAnswer (Said (IsClass (in_plug "p/T"))) "class p/T@plug" }
    ensures memory { PrintsAnswer OutOfMemory "OutOfMemory" }
    ensures fault { PrintsAnswer (SourceFault (codes "p/T") boot) "SourceFault p/T@boot" }
    ensures first_line { PrintsLine 0 OutOfMemory "1 OutOfMemory" }
    ensures tenth_line { PrintsLine 9 (Said (IsArrayOf 2 (in_app "p/T"))) "10 array 2 p/T@app" }
{}

/// A request is answered in its round, once; the next round begins when all of this one are
/// answered, if there is one, also where no request is of it.
pub fn round_discipline()
    // What may not be done at first.
    ensures early { MayPost in_rounds start 1 OutOfMemory → ⊥ }
    ensures no_request { MayPost in_rounds start 9 OutOfMemory → ⊥ }
    ensures unanswered { MayGoOn in_rounds start → ⊥ }
    // A post, and a second one.
    ensures posted { MayPost in_rounds start 0 OutOfMemory }
    ensures again { MayPost in_rounds (after start (Post 0 OutOfMemory)) 0 OutOfMemory → ⊥ }
    // The next round.
    ensures next { MayGoOn in_rounds (after start (Post 0 OutOfMemory)) }
    ensures empty_next { MayGoOn in_rounds (standing_after two_rounds) }
    ensures no_next { MayGoOn in_rounds (standing_after (two_rounds ++ NextRound ∷ [])) → ⊥ }
{}

/// A reference is settled and then its request answered; a class is prepared after what stands
/// above it, and then its link is answered.
pub fn resolve_and_link()
    ensures { Run serving start (loading ++ resolving ++ linking) }
{}

/// A verdict is settled for its class and index alone, and an answer posted for its request; a
/// record is of its loader and name.
pub fn what_stands()
    ensures settled { settled_to end_state.settled (in_plug "p/Use") 1 ≡ Some of_svc }
    ensures other_index { settled_to end_state.settled (in_plug "p/Use") 2 ≡ None }
    ensures other_class { settled_to end_state.settled (in_app "p/Svc") 1 ≡ None }
    ensures answered { answer_to end_state.answers 2 ≡ Some (Said BadEntry) }
    ensures other_request { answer_to end_state.answers 3 ≡ None }
    ensures initiating { recorded_definer end_state.records plug (codes "p/Svc") ≡ Some app }
    ensures other_loader { recorded_definer end_state.records boot (codes "p/Svc") ≡ None }
{}

/// A need is next where all before it are met.
pub fn needs_in_order()
    ensures next { IsNext start (same_t app plug ∷ []) (same_t app plug) }
    ensures not_yet { IsNext start (root_record boot ∷ same_t app plug ∷ []) (same_t app plug) → ⊥ }
{}

/// No step is taken before what it rests on: supertypes, records, constraints, and for an answer
/// the settled reference or the prepared class.
pub fn steps_too_early()
    // Records and equalities.
    ensures define { MayDefine serving start (in_app "p/Svc") → ⊥ }
    ensures initiate { MayInitiate serving start object boot app → ⊥ }
    ensures constrain { MayConstrain serving start (codes "p/T") app plug → ⊥ }
    // A settled reference, and the answer that it gives.
    ensures settle { MaySettle serving (standing_after loading) (in_plug "p/Use") 1 of_svc → ⊥ }
    ensures settle_unrecorded { MaySettle serving start (in_plug "p/Use") 1 of_svc → ⊥ }
    ensures resolve { MayPost serving unsettled 0 (Said of_svc) → ⊥ }
    // A prepared class, and the answer that it gives.
    ensures prepare_unrecorded { MayPrepare serving start the_root → ⊥ }
    ensures prepare_below { MayPrepare serving unsettled (in_plug "p/Use") → ⊥ }
    ensures prepare_unconstrained { MayPrepare serving unconstrained (in_plug "p/Use") → ⊥ }
    ensures link { MayPost serving unprepared 1 (Said (IsLinked (in_plug "p/Use"))) → ⊥ }
{}

/// No step is taken twice.
pub fn steps_made_again()
    ensures define { MayDefine serving end_state (in_plug "p/Use") → ⊥ }
    ensures initiate { MayInitiate serving end_state object boot app → ⊥ }
    ensures constrain { MayConstrain serving end_state (codes "p/T") app plug → ⊥ }
    ensures settle { MaySettle serving end_state (in_plug "p/Use") 1 of_svc → ⊥ }
    ensures prepare { MayPrepare serving end_state (in_plug "p/Use") → ⊥ }
    ensures answer { MayPost serving end_state 0 (Said of_svc) → ⊥ }
{}

/// What no state allows: a class elsewhere than at its home, an initiating record of the definer or
/// of another home, and a settled entry that is no reference of a class's.
pub fn steps_never_made()
    ensures define { (s : State) → MayDefine serving s (in_plug "p/Svc") → ⊥ }
    ensures initiate_own { (s : State) → MayInitiate serving s object boot boot → ⊥ }
    ensures initiate_elsewhere { (s : State) → MayInitiate serving s object app plug → ⊥ }
    ensures bad_entry_settled { (s : State) → MaySettle serving s (in_plug "p/Use") 9 BadEntry → ⊥ }
    ensures member_settled { (s : State) → MaySettle serving s (in_plug "p/Use") 1 ArrayMember → ⊥ }
    ensures stray { (s : State) → May serving s Stray → ⊥ }
{}

/// A class that does not fit with its superclass is not defined, though the superclass is recorded.
pub fn misfit_not_defined()
    ensures { MayDefine (over misfits) (standing_after below_hidden) (in_plug "p/K") → ⊥ }
{}

/// An equality is imposed by the preparation of a class, also where no reference imposes it.
pub fn constrained_by_preparation()
    ensures { MayConstrain (over overridden_alone) (standing_after loading) (codes "p/T") app plug }
{}

/// An equality joins its loaders for its name alone.
pub fn equality_for_one_name()
    ensures { Joined (standing_after constrained).equalities (codes "p/V") app plug → ⊥ }
{}

/// A loader may record the class that one joined with it records.
pub fn same_class_joined()
    ensures { MayInitiate (over service) (standing_after joined_with_kid) (codes "p/T") app kid }
{}

/// What is refused is not added; the reference is settled to the refusal, and where its class's own
/// load is refused, the answer needs no settled reference.
pub fn refused_steps()
    ensures define { MayDefine (over service) (standing_after constrained) (in_plug "p/T") → ⊥ }
    ensures constrain { MayConstrain (over service) both_stand (codes "p/T") app plug → ⊥ }
    ensures settle { MaySettle (over service) both_stand (in_plug "p/Use") 1 t_refused }
    ensures own_load { MayPost resolved_in_kid (standing_after across) 0 (Said kid_refused) }
{}
