ghost use Rattle.cl_model.specs.ReferenceLaws.{ResolvesThrough, ThroughEnds, ReferenceGoesThrough, BadEntryGoesThrough, NamelessGoesThrough, ThroughAnswers, LoadGoesOn, ResolveGoesOn, LinkGoesOn, GoneOnEnds, GoneOnIsNext, LinkedIsImposed, LinkComes, LinkRefusalComes, UnreachedComes, LoadRefusalComes, RecordIsNext, LinkRecordComes, BorneMayBeSaid, FirstLoadRestsOnNothing};

/// The resolution of a reference that names a class is the load of that class, and what follows it (JVMS 5.4.3).
pub fn resolution_is_load_and_more()
    ensures load { ResolvesThrough }
    ensures ends { ThroughEnds }
{}

/// Where the class that a reference names is recorded, its resolution goes on with what follows the load; an entry that names no
/// class is resolved at once. So it is answered (JVMS 5.4.3).
pub fn entry_goes_through()
    ensures reference { ReferenceGoesThrough }
    ensures bad_entry { BadEntryGoesThrough }
    ensures nameless { NamelessGoesThrough }
    ensures answer { ThroughAnswers }
{}

/// Where a loader records the class of a request, the needs of its load are met, and these follow (JVMS 5.3, 5.4.2, 5.4.3).
pub fn plan_goes_on()
    ensures load { LoadGoesOn }
    ensures resolve { ResolveGoesOn }
    ensures link { LinkGoesOn }
{}

/// So the plan ends, or goes on (JVMS 5.3 to 5.4.3).
pub fn gone_on_ends()
    ensures ends { GoneOnEnds }
    ensures next { GoneOnIsNext }
{}

/// What is linked has its constraints imposed, and a request to link a class comes to that, or to the first refusal (JVMS 5.4.2).
pub fn link_comes()
    ensures imposed { LinkedIsImposed }
    ensures linked { LinkComes }
    ensures refused { LinkRefusalComes }
{}

/// A request comes to the end of its load: that reaches no class, or needs what is refused (JVMS 5.3.4, 5.3.5).
pub fn load_comes()
    ensures unreached { UnreachedComes }
    ensures refused { LoadRefusalComes }
{}

/// A record that comes next in the plan of any request is made next in its service; a request to link comes to it where it is
/// refused (JVMS 5.3, 5.3.4).
pub fn record_is_next()
    ensures made { RecordIsNext }
    ensures refused { LinkRecordComes }
{}

/// What the tables bear may be said; where the class of a request is not recorded, they bear each answer (JVMS 5.3 to 5.4.3).
pub fn borne_may_be_said()
    ensures said { BorneMayBeSaid }
    ensures unrecorded { FirstLoadRestsOnNothing }
{}
