ghost use Rattle.cl_model.specs.Laws.{HomeOfHome, HomeIsOnRoute, HomeIsProbed, ProbedOnce, ProbesAreLoaders, GoodIsNotFailing, RunGoesOn, RecordsStay, MetStays, NeverViolated, OneAnswer, HigherDerives, AnswersStay, DerivedIsGood, RecordedIsMet, RunsAreClosed, GoodIsDerived, ErrorIsFailing, OneError, GoodGrows, FailsGrows, FailingIsDerived, ReturnIsCircular, ReturnGoesOn, CircleReturns, ReturnIsDerived, OneSubject, FailureIsNoCircle, OneDerivation, GoodIsAtHome, ComesOut, CircularReturns, CircularGoesOn, PlanExists, OnePlan, LineageExists, OneLineage, ResolutionExists, OneResolution, DerivedIsLineage, LineageIsDerived, LineageOnce, LineageHas, LineageSupersFirst, LineageRecorded, SettledStay, PreparedStay, PostedStay, RequestAnswerStays, ReferenceAnswerStays, OneRequestAnswer, OneReferenceAnswer, RunsAreSound, StepIsSound, ClashViolates, ViolationClashes, RecordedLoadStands, RecordedAnswers, UnmetIsFresh, ServiceGoesOn, ServiceIsWhole, NextStepMayHappen, BegunIsRun, OneNextStep, ComeToEnds, ServiceWithinCost, LoadNeedIsNext, ResolveNeedIsNext, SettleIsNext, LinkNeedIsNext, PrepareIsNext, LoadComes, ResolutionComes, ServicesGoOn, NoRoundLeft, CircleIsAnswered, CircularIsAnswered, PartBegins, RunThen, RunParts, StateThen, SaidAlike, SaidReference, PlanIsReference, ReferenceIsPlan, RecordedIsReached, ReachedIsRecorded, AnsweredMaySettle, ImposedMayPrepare, SaidIsSettled, LinkedIsPrepared, LineagePrepared, FileIsRead, StepsThen, StepsSame, NextMayBeMade, StepAdds, SameKey, FieldKey, MethodKey, ConstrainsInOrder, VerdictEnds, PassedIsRun};

/// A home is its own home.
pub fn home_of_home()
    ensures { HomeOfHome }
{}

/// A home is the first of the loaders that are asked whose own content has the name.
pub fn home_is_on_route()
    ensures { HomeIsOnRoute }
{}

/// A home is the first of the loaders that are probed whose own content has the name; each of these is a loader, and
/// none is probed twice.
pub fn home_is_probed()
    ensures home { HomeIsProbed }
    ensures once { ProbedOnce }
    ensures loaders { ProbesAreLoaders }
{}

/// What is good does not fail.
pub fn good_or_fails()
    ensures { GoodIsNotFailing }
{}

/// A run goes on by what may happen.
pub fn run_goes_on()
    ensures { RunGoesOn }
{}

/// A record never changes.
pub fn records_stay()
    ensures { RecordsStay }
{}

/// What is met stays met.
pub fn met_stays()
    ensures { MetStays }
{}

/// Along a run nothing is violated.
pub fn never_violated()
    ensures { NeverViolated }
{}

/// A list of needs has one answer in a state.
pub fn one_answer()
    ensures { OneAnswer }
{}

/// A greater height derives the same.
pub fn higher_derives()
    ensures { HigherDerives }
{}

/// An answer stays the same along a run.
pub fn answers_stay()
    ensures { AnswersStay }
{}

/// What derives to a lineage is good.
pub fn derived_is_good()
    ensures { DerivedIsGood }
{}

/// In a closed state a recorded class needs nothing more.
pub fn recorded_is_met()
    ensures { RecordedIsMet }
{}

/// Every state of a run is closed.
pub fn runs_are_closed()
    ensures { RunsAreClosed }
{}

/// What is good is derived at its height: a class met again cannot be good.
pub fn good_is_derived()
    ensures { GoodIsDerived }
{}

/// What derives to an error fails with it, or a walk ends in it.
pub fn error_is_failing()
    ensures { ErrorIsFailing }
{}

/// A class fails with one error.
pub fn one_error()
    ensures { OneError }
{}

/// What is good at a height is good at a greater one.
pub fn good_grows()
    ensures { GoodGrows }
{}

/// What fails at a height fails at a greater one.
pub fn fails_grows()
    ensures { FailsGrows }
{}

/// What fails is derived to its error at its height: a class met again cannot fail.
pub fn fails_is_derived()
    ensures { FailingIsDerived }
{}

/// A walk that returns excludes both.
pub fn return_is_circular()
    ensures { ReturnIsCircular }
{}

/// From a class whose walk returns the first supertype that is not good is circular too.
pub fn return_goes_on()
    ensures { ReturnGoesOn }
{}

/// What derives to a circle is where a walk returns.
pub fn circle_returns()
    ensures { CircleReturns }
{}

/// Where a walk returns, the class is derived to the circle of that subject.
pub fn return_is_derived()
    ensures { ReturnIsDerived }
{}

/// A circle has one subject.
pub fn one_subject()
    ensures { OneSubject }
{}

/// A failure is no circle.
pub fn fails_no_circle()
    ensures { FailureIsNoCircle }
{}

/// Two heights derive the same.
pub fn one_derivation()
    ensures { OneDerivation }
{}

/// What is good is at home.
pub fn good_is_at_home()
    ensures { GoodIsAtHome }
{}

/// Each class is good, or fails, or a walk from it returns.
pub fn comes_out()
    ensures { ComesOut }
{}

/// From a circular class a walk returns.
pub fn circular_returns()
    ensures { CircularReturns }
{}

/// Of a circular class the first supertype that is not good is circular too.
pub fn circular_goes_on()
    ensures { CircularGoesOn }
{}

/// Each request has a plan.
pub fn plan_exists()
    ensures { PlanExists }
{}

/// A request has one plan.
pub fn one_plan()
    ensures { OnePlan }
{}

/// A good class has a lineage.
pub fn lineage_exists()
    ensures { LineageExists }
{}

/// A class has one lineage.
pub fn one_lineage()
    ensures { OneLineage }
{}

/// Each entry of a good class has a resolution.
pub fn resolution_exists()
    ensures { ResolutionExists }
{}

/// An entry has one resolution.
pub fn one_resolution()
    ensures { OneResolution }
{}

/// What a derivation ends in is the lineage of its class, with its file and its supertypes at their homes.
pub fn derived_is_lineage()
    ensures { DerivedIsLineage }
{}

/// A lineage is what its class is derived to.
pub fn lineage_is_derived()
    ensures { LineageIsDerived }
{}

/// A lineage has each class once, its own too, each after its direct supertypes; those of a recorded class are recorded.
pub fn lineage_is_ordered()
    ensures once { LineageOnce }
    ensures own { LineageHas }
    ensures supers_first { LineageSupersFirst }
    ensures recorded { LineageRecorded }
{}

/// A settled verdict never changes.
pub fn settled_stay()
    ensures { SettledStay }
{}

/// What is prepared stays so.
pub fn prepared_stay()
    ensures { PreparedStay }
{}

/// A posted answer never changes.
pub fn posted_stay()
    ensures { PostedStay }
{}

/// The answer of a request stays the same along a run.
pub fn request_answer_stays()
    ensures { RequestAnswerStays }
{}

/// The answer of a reference stays the same along a run.
pub fn reference_answer_stays()
    ensures { ReferenceAnswerStays }
{}

/// A request has one answer in a state.
pub fn one_request_answer()
    ensures { OneRequestAnswer }
{}

/// A reference has one answer in a state.
pub fn one_reference_answer()
    ensures { OneReferenceAnswer }
{}

/// An equality may be imposed exactly where it stands in a list that imposes, behind needs that are met.
pub fn constrains_in_order()
    ensures { ConstrainsInOrder }
{}

/// All that a state of a run holds is as it should be.
pub fn runs_are_sound()
    ensures { RunsAreSound }
{}

/// A step that may happen keeps a state sound.
pub fn step_is_sound()
    ensures { StepIsSound }
{}

/// What clashes would violate, where it is fresh.
pub fn clash_violates()
    ensures { ClashViolates }
{}

/// What would violate clashes, where nothing was violated before.
pub fn violation_clashes()
    ensures { ViolationClashes }
{}

/// Where a loader records a name, its load ends in that class, and all its needs stand, its own record too.
pub fn recorded_load_stands()
    ensures { RecordedLoadStands }
{}

/// The class that a loader records for a name is the answer of its load.
pub fn recorded_answers()
    ensures { RecordedAnswers }
{}

/// A record that is wanted with its home and does not stand is fresh.
pub fn unmet_is_fresh()
    ensures { UnmetIsFresh }
{}

/// A service that was begun goes on by the step that comes next.
pub fn service_goes_on()
    ensures { ServiceGoesOn }
{}

/// A service that was begun is whole once its answer is posted.
pub fn service_is_whole()
    ensures { ServiceIsWhole }
{}

/// What comes next in a service may happen, so that a service that was begun is a run, and so are the
/// rounds that begin between services.
pub fn service_is_run()
    ensures step { NextStepMayHappen }
    ensures run { BegunIsRun }
    ensures rounds { PassedIsRun }
{}

/// At most one step comes next in a service, and none once it has come to its verdict.
pub fn one_next_step()
    ensures one { OneNextStep }
    ensures none { ComeToEnds }
    ensures ended { VerdictEnds }
{}

/// The need that comes next in the plan of a load or of a resolution is served next.
pub fn need_is_next()
    ensures load { LoadNeedIsNext }
    ensures resolve { ResolveNeedIsNext }
{}

/// What comes next past the load: of a resolution that its reference is settled, of a link what links each class in turn.
pub fn past_load_is_next()
    ensures settle { SettleIsNext }
    ensures need { LinkNeedIsNext }
    ensures prepare { PrepareIsNext }
{}

/// What may be said of a load or of a resolution is what its service comes to.
pub fn said_is_come_to()
    ensures load { LoadComes }
    ensures resolve { ResolutionComes }
{}

/// Whatever else happens, the steps of a request's service, and its post, are within its cost.
pub fn service_within_cost()
    ensures { ServiceWithinCost }
{}

/// Services go on by that of the next request, and by the rounds that begin after it.
pub fn services_go_on()
    ensures { ServicesGoOn }
{}

/// Once all are served no later round may begin.
pub fn no_round_left()
    ensures { NoRoundLeft }
{}

/// A load is answered a circle only where its home is circular, of the class that its walk meets again.
pub fn circle_is_answered()
    ensures { CircleIsAnswered }
{}

/// A load whose home is circular is answered so, unless a need before is refused.
pub fn circular_is_answered()
    ensures { CircularIsAnswered }
{}

/// The first part of a service that was begun is one.
pub fn part_begins()
    ensures { PartBegins }
{}

/// A run goes on by a run from its state.
pub fn run_then()
    ensures { RunThen }
{}

/// Each part of a run is a run.
pub fn run_parts()
    ensures { RunParts }
{}

/// The state after two parts of a history.
pub fn state_then()
    ensures { StateThen }
{}

/// Two answers of the machine to equal requests are equal.
pub fn said_alike()
    ensures { SaidAlike }
{}

/// The answer of a request that got past the load of its class is that of the reference.
pub fn said_reference()
    ensures { SaidReference }
{}

/// Past its load a resolution is answered as the reference, and the reference as the resolution.
pub fn plan_is_reference()
    ensures reference { PlanIsReference }
    ensures plan { ReferenceIsPlan }
{}

/// Where a loader records the class of a request, its plan reaches that class past its load; and the other way round.
pub fn reached_is_recorded()
    ensures reached { RecordedIsReached }
    ensures recorded { ReachedIsRecorded }
{}

/// What may be settled, and what may be prepared.
pub fn answered_may_settle()
    ensures settle { AnsweredMaySettle }
    ensures prepare { ImposedMayPrepare }
{}

/// What a posted verdict rests on.
pub fn said_is_settled()
    ensures settled { SaidIsSettled }
    ensures prepared { LinkedIsPrepared }
    ensures lineage { LineagePrepared }
{}

/// What has a file is read from its own bytes, and the file names it.
pub fn file_is_read()
    ensures { FileIsRead }
{}

/// What a history tells, where it goes on.
pub fn steps_then()
    ensures { StepsThen }
{}

/// Answers that differ at one request alone tell the same of a history in which it is not posted.
pub fn steps_same()
    ensures { StepsSame }
{}

/// The first need of a plan that does not stand may be made, unless it is refused.
pub fn next_may_be_made()
    ensures { NextMayBeMade }
{}

/// The step of a need adds it.
pub fn step_adds()
    ensures { StepAdds }
{}

/// The test of two keys tells whether they are equal.
pub fn keys_are_told()
    ensures { SameKey }
{}

/// The key of a member is that of the texts of its name and its descriptor: a field's, and a method's.
pub fn keys_of_members()
    ensures field { FieldKey }
    ensures method { MethodKey }
{}
