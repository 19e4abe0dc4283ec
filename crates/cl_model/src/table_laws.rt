ghost use Rattle.cl_model.specs.TableLaws.{TrustedIsConsistent, AllowedIsConsistent, TrustedGoesOn, TrustedParts, MayIsAllowed, RunsAreTrusted, DefinedOnce, AnsweredOnce, ToldInRound, ToldIsRecorded, ToldIsSettled, ToldIsPrepared, InitiatedOverRecord, SettledOnTables, PreparedOnTables, RoundsOnTables, NoStray};

/// Trusted tables are consistent, under any source.
pub fn trusted_is_consistent()
    ensures { TrustedIsConsistent }
{}

/// A step that the tables allow keeps them consistent.
pub fn allowed_is_consistent()
    ensures { AllowedIsConsistent }
{}

/// Trusted tables stay so by a step that they allow.
pub fn trusted_goes_on()
    ensures { TrustedGoesOn }
{}

/// The parts of a trusted history.
pub fn trusted_parts()
    ensures { TrustedParts }
{}

/// In a closed state the tables allow a step that may happen.
pub fn may_is_allowed()
    ensures { MayIsAllowed }
{}

/// In a run the tables are trusted.
pub fn runs_are_trusted()
    ensures { RunsAreTrusted }
{}

/// A class is defined once, under any source.
pub fn defined_once()
    ensures { DefinedOnce }
{}

/// A request is answered once, under any source.
pub fn answered_once()
    ensures { AnsweredOnce }
{}

/// What an answer told rested on, under any source.
pub fn told_rests_on_tables()
    ensures in_round { ToldInRound }
    ensures recorded { ToldIsRecorded }
    ensures settled { ToldIsSettled }
    ensures prepared { ToldIsPrepared }
{}

/// What each kind of step rested on where it was made, under any source.
pub fn steps_rest_on_tables()
    ensures initiated { InitiatedOverRecord }
    ensures settled { SettledOnTables }
    ensures prepared { PreparedOnTables }
    ensures rounds { RoundsOnTables }
    ensures no_stray { NoStray }
{}
