//! Worked examples, computed from the definitions.
ghost use Rattle.std.specs.Prelude.{◌≡◌, ℕ, List, [], ◌∷◌, codes, Ok, Err};
ghost use Rattle.cl_model.specs.declared.request.Request.TheVariants.{Load, Resolve, Link};
ghost use Rattle.cl_config.specs.Scripts.{IsBad, LacksLoader, ScriptSays, script_of};
ghost use Rattle.cl_config.specs.Examples.{two, LineMakes};
ghost use Rattle.cl_config.specs.declared.script.Said.TheVariants.{Then};
ghost use Rattle.cl_config.specs.declared.script.ScriptFault.TheVariants.{BadLine, UnknownLoader};

/// Lines that make a request or begin a round; spaces part the words.
pub fn lines_that_say()
    ensures load { LineMakes (codes "load app p/A") (Load 1 (codes "p/A")) }
    ensures resolve { LineMakes (codes "  resolve boot  p/A 7 ") (Resolve 0 (codes "p/A") 7) }
    ensures link { LineMakes (codes "link app p/A") (Link 1 (codes "p/A")) }
    ensures round { ScriptSays two (codes " then ") Then }
{}

/// Lines that no script may have; a bad index or name comes before a loader that is none.
pub fn lines_that_are_bad()
    // A bad index, or one where none stands.
    ensures without_index { IsBad (codes "resolve app p/A") }
    ensures great_index { IsBad (codes "resolve x p/A 65536") }
    ensures load_with_index { IsBad (codes "load app p/A 1") }
    ensures link_with_index { IsBad (codes "link app p/A 1") }
    // A bad name, or bad words.
    ensures no_class { IsBad (codes "link x p.A") }
    ensures upper_case { IsBad (codes "Link app p/A") }
    ensures two_rounds { IsBad (codes "then then") }
    // A loader that is none.
    ensures unknown { LacksLoader two (codes "resolve x p/A 1") }
{}

/// A text with a request of each kind in two rounds, and the first line that is wrong of another, counted
/// with the lines that are skipped.
pub fn texts()
    ensures script { script_of two (codes "load app p/A\nthen\nresolve app p/A 1\nlink app p/A")
        (Ok (record {
          requests = Load 1 (codes "p/A") ∷ Resolve 1 (codes "p/A") 1 ∷ Link 1 (codes "p/A") ∷ [];
          rounds_of = 0 ∷ 1 ∷ 1 ∷ [];
          rounds = 2;
        })) }
    ensures bad { script_of two (codes "# x\n\nload app p/A\nlink x p.A\n") (Err (BadLine 4)) }
    ensures unknown { script_of two (codes "then\nlink x p/A\nload") (Err (UnknownLoader 2)) }
{}
