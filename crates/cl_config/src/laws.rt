//! Laws of what a text is read as, each the contract of a function that does nothing.
ghost use Rattle.std.specs.Prelude.{◌≡◌};
ghost use Rattle.cl_config.specs.declared.limits.TheConstants.{MOST_IMPORTS, MOST_LOADER_NAME_BYTES, MOST_LOADERS, MOST_PARENTS, MOST_REQUESTS, MOST_THENS};
ghost use Rattle.cl_config.specs.Flat.{FlatTellsApart};
ghost use Rattle.cl_config.specs.ScriptLaws.{ScriptHasOneFault, ScriptOrItsFault};

/// A text that is a script has no fault but out of memory, so `Script::read` refuses no script for what it says.
pub fn script_or_its_fault()
    ensures { ScriptOrItsFault }
{}

/// A text has one fault at most, out of memory apart: which line `Script::read` blames, and why, is settled.
pub fn script_has_one_fault()
    ensures { ScriptHasOneFault }
{}

/// Two configurations of one flat text are the same, so that `Config::is_same` compares the texts alone.
pub fn flat_tells_apart()
    ensures { FlatTellsApart }
{}

/// The limits in numbers: definitions and code speak of them by name.
pub fn limits()
    ensures loaders { MOST_LOADERS ≡ 1024 }
    ensures parents { MOST_PARENTS ≡ 64 }
    ensures imports { MOST_IMPORTS ≡ 64 }
    ensures name { MOST_LOADER_NAME_BYTES ≡ 64 }
    ensures requests { MOST_REQUESTS ≡ 65535 }
    ensures thens { MOST_THENS ≡ 65535 }
{}
