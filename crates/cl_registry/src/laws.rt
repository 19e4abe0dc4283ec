//! Laws of what a registry accepts, each the contract of a function that does nothing.
ghost use Rattle.cl_registry.specs.Allowed.{AllowedIsEntered, AllowedIsImposed, AllowedIsJoined, AllowedIsMarked, AllowedIsPosted, EnteredIsAllowed, FittingIsAllowed, ImposedIsAllowed, JoinedIsAllowed, MarkedIsAllowed, OtherConfigIsStray, RecordedIsNamed, RoundIsAllowed};

/// A class of this configuration that the linkage machine may define has no record, may be entered and is not refused: `define`
/// refuses it for memory alone.
pub fn allowed_is_entered()
    ensures { AllowedIsEntered }
{}

/// A class that has no record and may be entered, and is not refused, may be defined by the linkage machine.
pub fn entered_is_allowed()
    ensures { EnteredIsAllowed }
{}

/// Where the linkage machine may record an initiating loader by a home of this configuration, that loader has no record, the record
/// is not refused, and the home may be joined: `initiate` refuses it for memory alone.
pub fn allowed_is_joined()
    ensures { AllowedIsJoined }
{}

/// A home that may be joined, where the loader has no record and this one is not refused, is one by which the linkage machine may
/// record that loader.
pub fn joined_is_allowed()
    ensures { JoinedIsAllowed }
{}

/// An equality of a list that may be imposed, and is neither met nor refused, may be imposed by the linkage machine.
pub fn imposed_is_allowed()
    ensures { ImposedIsAllowed }
{}

/// An equality of a list of this configuration, to which the linkage machine's own list comes, may be imposed: `impose` refuses it
/// where it is refused, or for memory.
pub fn allowed_is_imposed()
    ensures { AllowedIsImposed }
{}

/// A class that may be marked, and is not prepared, may be prepared by the linkage machine.
pub fn marked_is_allowed()
    ensures { MarkedIsAllowed }
{}

/// A class of this configuration that the linkage machine may prepare may be marked by its list: `mark_prepared` refuses it for
/// memory alone.
pub fn allowed_is_marked()
    ensures { AllowedIsMarked }
{}

/// An answer that fits and rests on the content may be posted by the linkage machine.
pub fn fitting_is_allowed()
    ensures { FittingIsAllowed }
{}

/// A verdict that the linkage machine may post fits where it is one that is looked up, where the finding that says it stands, or
/// where it refuses a link's equality with the lists of all classes before: `post` takes it.
pub fn allowed_is_posted()
    ensures { AllowedIsPosted }
{}

/// Where the next round may begin, the linkage machine may go on. By definition: both say that the round is over and is not the
/// last.
pub fn round_is_allowed()
    ensures { RoundIsAllowed }
{}

/// A class whose home was found under another configuration, and of which its loader has no record, is refused as Stray.
pub fn other_config_is_stray()
    ensures { OtherConfigIsStray }
{}

/// What is recorded was defined by a loader of the configuration, under any source.
pub fn recorded_is_named()
    ensures { RecordedIsNamed }
{}
