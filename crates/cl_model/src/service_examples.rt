//! Worked examples of requests that are served one after another, computed from the definitions.

ghost use Rattle.std.specs.Prelude.{◌∷◌, ◌++◌, [], codes};
ghost use Rattle.cl_model.specs.Classes.{ClassNotFound};
ghost use Rattle.cl_model.specs.States.{BadEntry, Said, SourceFault, Wrong, start};
ghost use Rattle.cl_model.specs.Machine.{Define, NextRound, Post, Settle};
ghost use Rattle.cl_model.specs.Service.{IsPiece, Serves};
ghost use Rattle.cl_model.specs.Examples.{app, boot, kid, plug, the_root, in_kid, in_plug, link_of, load_of};
ghost use Rattle.cl_model.specs.ExampleReferences.{service};
ghost use Rattle.cl_model.specs.ExampleRuns.{both_stand, linking, loading, of_use, over, resolving, serving, standing_after, t_refused};
ghost use Rattle.cl_model.specs.ExampleServices.{BothServed, RunServed, failed_post};

/// Rounds begin before the first request, between two and after the last, over empty ones too: as
/// soon as each may, none before, and nothing else among them.
pub fn rounds_between_services()
    ensures served { BothServed (
        NextRound ∷ failed_post 0 ∷ NextRound ∷ NextRound ∷ failed_post 1 ∷ NextRound ∷ []) }
    ensures first { BothServed (
        failed_post 0 ∷ NextRound ∷ NextRound ∷ NextRound ∷ failed_post 1 ∷ NextRound ∷ []) → ⊥ }
    ensures between { BothServed (
        NextRound ∷ failed_post 0 ∷ NextRound ∷ failed_post 1 ∷ NextRound ∷ NextRound ∷ []) → ⊥ }
    ensures last { BothServed (
        NextRound ∷ failed_post 0 ∷ NextRound ∷ NextRound ∷ failed_post 1 ∷ []) → ⊥ }
    ensures past_last { BothServed (
        NextRound ∷ failed_post 0 ∷ NextRound ∷ NextRound ∷ failed_post 1 ∷ NextRound ∷ NextRound
        ∷ []) → ⊥ }
    ensures out_of_turn { BothServed (
        NextRound ∷ failed_post 1 ∷ failed_post 0 ∷ NextRound ∷ NextRound ∷ failed_post 1
        ∷ NextRound ∷ []) → ⊥ }
{}

/// A reference is resolved in the first round, and in the second its class linked, and an entry
/// resolved that is no reference.
pub fn services_of_a_run()
    ensures { RunServed (loading ++ resolving ++ linking) }
{}

/// A service may be broken off by a fault of the source; it ends with the verdict that it comes to and
/// no other, which a refused need settles; a class that is not found wants nothing.
pub fn ends_of_services()
    ensures broken_off { Serves serving 0 (of_use plug) start (
        Define the_root ∷ Post 0 (SourceFault (codes "p/Svc") app) ∷ []) }
    ensures refused { Serves (over service) 0 (of_use plug) both_stand (
        Settle (in_plug "p/Use") 1 t_refused ∷ Post 0 (Said t_refused) ∷ []) }
    ensures no_class { Serves (over service) 0 (link_of kid "p/X") start (
        Post 0 (Said (Wrong (ClassNotFound (in_kid "p/X")))) ∷ []) }
    ensures other_verdict { Serves (over service) 0 (load_of boot "java/lang/Object")
        (standing_after (Define the_root ∷ [])) (Post 0 (Said BadEntry) ∷ []) → ⊥ }
{}

/// A piece of a service is its next step or its post, with what it comes to.
pub fn pieces_of_services()
    ensures step { IsPiece serving start 0 (of_use plug) (Define the_root) }
    ensures post { IsPiece serving start 0 (of_use plug) (failed_post 0) }
    ensures other_number { IsPiece serving start 0 (of_use plug) (failed_post 1) → ⊥ }
    ensures other_verdict { IsPiece (over service) (standing_after (Define the_root ∷ [])) 0
        (load_of boot "java/lang/Object") (Post 0 (Said BadEntry)) → ⊥ }
{}
