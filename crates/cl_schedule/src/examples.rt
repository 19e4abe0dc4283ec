//! Worked examples of reports and of choices, computed from the definitions.

ghost use Rattle.std.specs.Prelude.{◌≡◌, ◌∷◌, [], Some, None, codes, replicate};
ghost use Rattle.std.specs.declared.alloc.Global.{Global};
ghost use Rattle.std.specs.declared.sync.Arc.{Arc};
ghost use Rattle.cl_model.specs.declared.answer.Answer.TheVariants as answers;
ghost use Rattle.cl_model.specs.declared.event.Event.TheVariants as events;
ghost use Rattle.cl_model.specs.declared.verdict.ErrorKind.TheVariants as kinds;
ghost use Rattle.cl_model.specs.declared.verdict.Verdict.TheVariants as verdicts;
ghost use Rattle.cl_model.specs.Classes.{NoClassDef};
ghost use Rattle.cl_model.specs.Examples.{app, boot, in_app, in_boot, load_of};
ghost use Rattle.cl_model.specs.ExampleLoads.{circle};
ghost use Rattle.cl_model.specs.ExampleServices.{failed_post};
ghost use Rattle.cl_model.specs.Machine.{after};
ghost use Rattle.cl_model.specs.States.{IsClass, Wrong, start};
ghost use Rattle.cl_config.specs.Views.{Scripted};
ghost use Rattle.cl_schedule.specs.Choices.{AreInTime, ArePrompt, Chooses, IsPieceOf, Plays, piece, taken_by, waiting_requests};
ghost use Rattle.cl_schedule.specs.Examples.{Breaks, Unserved, both_posted, defined_and_posted, error_t, idle, load_t, loads_of, lone, no_class, not_found, one_load, pair, recorded, report, resolve_t, three_pieces, two, two_loads};
ghost use Rattle.cl_schedule.specs.Headline.{Alike, CircleAnswer, CirclesExact, EachSpelt, IsServed, ReferencesAlike};
ghost use Rattle.cl_schedule.specs.Known.{HasVerdict, KnownStays};
ghost use Rattle.cl_schedule.specs.Serving.{HasEachBelow};

/// Where the source has nothing, two loads are answered that the class is not found.
pub fn served_report()
    ensures { (at : Arc Scripted Global) → IsServed (Some []) lone two_loads
        (report at two_loads both_posted (not_found ∷ not_found ∷ [])) }
{}

/// Each request is posted once, in whatever order, and no other is.
pub fn posted_once()
    ensures turned { HasEachBelow 2 (1 ∷ 0 ∷ []) }
    ensures left_out { HasEachBelow 2 (0 ∷ []) → ⊥ }
    ensures twice { HasEachBelow 2 (1 ∷ 1 ∷ 0 ∷ []) → ⊥ }
    ensures further { HasEachBelow 2 (2 ∷ 1 ∷ 0 ∷ []) → ⊥ }
{}

/// No report is of another script, names a loader that is none, stops before the last round, or has
/// tables that cannot be trusted; none tells an error that the source gives no reason for.
pub fn broken_reports()
    ensures script { (at : Arc Scripted Global) → IsServed None lone (two load_t load_t 0)
        (report at two_loads both_posted (not_found ∷ not_found ∷ [])) → ⊥ }
    ensures named { Unserved None two_loads both_posted
        (not_found ∷ answers.SourceFault (codes "p/T") app ∷ []) }
    ensures last { Unserved None (two load_t load_t 2) both_posted (not_found ∷ not_found ∷ []) }
    ensures trusted { Unserved None two_loads (events.Prepare (in_boot "p/T") ∷ both_posted)
        (not_found ∷ not_found ∷ []) }
    ensures run { Unserved (Some []) two_loads both_posted (no_class ∷ no_class ∷ []) }
{}

/// Where the source has nothing no class is recorded. Equal requests are answered alike, and equal
/// references through whatever loaders. A circle is told where there is one, and nowhere else.
pub fn broken_answers()
    ensures spelt { Breaks (EachSpelt (Some [])) two_loads defined_and_posted
        (not_found ∷ not_found ∷ []) }
    ensures alike { Breaks (Alike (Some [])) two_loads both_posted (not_found ∷ no_class ∷ []) }
    ensures references { Breaks (ReferencesAlike (Some [])) (two (resolve_t boot) (resolve_t app) 1)
        (events.Define (in_boot "p/T") ∷ events.Initiate (in_boot "p/T") app ∷ both_posted)
        (no_class ∷ answers.Said verdicts.BadEntry ∷ []) }
    ensures no_circle { Breaks (CirclesExact (Some [])) two_loads both_posted
        (error_t kinds.ClassCircularityError ∷ not_found ∷ []) }
    ensures circle { CircleAnswer circle app (codes "p/A") (Wrong (NoClassDef (in_app "p/A"))) → ⊥ }
{}

/// The tables have the verdict of a load where the loader that is asked records the class; it is the
/// answer of a request that is posted behind another one then.
pub fn known_verdicts()
    ensures load { HasVerdict recorded (load_of boot "p/T") (IsClass (in_boot "p/T")) }
    ensures other_loader { HasVerdict recorded (load_of app "p/T") (IsClass (in_boot "p/T")) → ⊥ }
    ensures stays { Breaks KnownStays two_loads defined_and_posted
        (answers.Said (verdicts.Class (in_boot "p/T"))
        ∷ answers.SourceFault (codes "p/T") boot ∷ []) }
{}

/// A choice takes, of the requests of the round that have no answer, the one at the place that it
/// leaves modulo their number, and makes a piece of no other's service. Behind it the rounds begin
/// that may, and no choice is left over.
pub fn choices()
    ensures waiting { waiting_requests (loads_of (0 ∷ 0 ∷ 0 ∷ 1 ∷ [])) (after start (failed_post 1))
        ≡ 0 ∷ 2 ∷ [] }
    ensures taken { taken_by (loads_of (0 ∷ 0 ∷ 0 ∷ 1 ∷ [])) (after start (failed_post 1)) 3
        ≡ Some 2 }
    ensures played { Plays pair start (3 ∷ 5 ∷ 2 ∷ []) three_pieces }
    ensures left_over { Plays pair start (3 ∷ []) [] → ⊥ }
    ensures other_request { Chooses pair start 0 (failed_post 1 ∷ []) → ⊥ }
    ensures round { IsPieceOf one_load start 0
        (piece one_load.script start 0 (failed_post 0 ∷ []) []) → ⊥ }
{}

/// A request whose verdict the tables have has its answer by its third taking, and any other when it
/// was taken as often as its plan costs, which here are ten times.
pub fn late_answers()
    ensures prompt { ArePrompt one_load.script (replicate 3 (idle recorded)) → ⊥ }
    ensures in_time { AreInTime one_load (replicate 10 (idle start)) → ⊥ }
{}
