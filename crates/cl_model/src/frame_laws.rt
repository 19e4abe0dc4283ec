ghost use Rattle.cl_model.specs.FrameLaws.{CompleteIsNext, DefinedIsNext, MissingEnds, FaultyEnds, CircleEnds, MisfitEnds, AnswersHere, RefusedAnswers, FramePush, FramePop, FrameAccept, FrameFits, KeptStays, KeptIsMet, CompleteIsKept, AcceptedIsNamed, PathScanned, PushFalls, RootFalls, LoadFalls, AcceptFalls, PopFalls, TurnFalls, SupersBounded};

/// What comes next under frames: where all supertypes of a class are accepted, its own record; where it is recorded at its home,
/// the record of the loader that asked (JVMS 5.3, 5.3.5).
pub fn next_under_frames()
    ensures complete { CompleteIsNext }
    ensures recorded { DefinedIsNext }
{}

/// Where a plan ends under frames, with all needs before it met: what is looked for has no home, its bytes are not its class,
/// it is being derived already, or it does not fit as the supertype that is wanted (JVMS 5.3.5).
pub fn frames_end()
    ensures missing { MissingEnds }
    ensures faulty { FaultyEnds }
    ensures circle { CircleEnds }
    ensures misfit { MisfitEnds }
{}

/// A request is answered by the end of its plan, or by the need that is next and refused (JVMS 5.3.4, 5.3.5).
pub fn ends_are_answers()
    ensures end { AnswersHere }
    ensures refused { RefusedAnswers }
{}

/// Frames stay frames where a class is pushed, is popped, and accepts the supertype that it wants (JVMS 5.3.5).
pub fn frames_stay()
    ensures push { FramePush }
    ensures pop { FramePop }
    ensures accept { FrameAccept }
    ensures fits { FrameFits }
{}

/// What frames accepted stays recorded, and is met as needs; where a frame wants nothing more, each of its supertypes is recorded
/// by its class's loader, under any source (JVMS 5.3, 5.3.5).
pub fn accepted_is_recorded()
    ensures stays { KeptStays }
    ensures met { KeptIsMet }
    ensures complete { CompleteIsKept }
    ensures names { AcceptedIsNamed }
{}

/// A class is on the path exactly where a frame is of it.
pub fn path_is_scanned()
    ensures { PathScanned }
{}

/// What is left falls, under any source: with a new frame, with the end of a load, with the next supertype, with the end of a frame.
pub fn left_falls()
    ensures push { PushFalls }
    ensures root { RootFalls }
    ensures load { LoadFalls }
    ensures accept { AcceptFalls }
    ensures pop { PopFalls }
    ensures turn { TurnFalls }
{}

/// A class file has one superclass at most (JVMS 4.1).
pub fn supertypes_are_bounded()
    ensures { SupersBounded }
{}
