//! Laws of what is settled and posted: each is the contract of a function without a body.

ghost use Rattle.cl_registry.specs.SettlingLaws.{AllowedIsSettled, FittingIsBorne, PostedLinkIsPrepared, OtherFindingIsStray, OtherFindingIsUnbacked, PostedIsSettled, PreparedComes, SettledIsAllowed, SettledIsBacked, SettledIsTold, SettledStays, UnsettledIsTold};

/// What a history tells to be settled is so in the linkage machine, and nothing else is (JVMS SE 8, 5.4.3).
pub fn settled_is_told()
    ensures settled { SettledIsTold }
    ensures unsettled { UnsettledIsTold }
{}

/// What a reference is settled to never changes, under any source (JVMS SE 8, 5.4.3).
pub fn settled_stays()
    ensures { SettledStays }
{}

/// A request to link a class that is recorded and prepared comes to that (JVMS SE 8, 5.4).
pub fn prepared_comes()
    ensures { PreparedComes }
{}

/// What a finding settles, where the entry is not settled, may be settled by the linkage machine (JVMS SE 8, 5.4.3).
pub fn settled_is_allowed()
    ensures { SettledIsAllowed }
{}

/// What a finding that stands says of an entry is settled where the linkage machine allows it: `settle` refuses it for memory
/// alone (JVMS SE 8, 5.4.3).
pub fn allowed_is_settled()
    ensures { AllowedIsSettled }
{}

/// A finding of another configuration is refused as Stray by `settle`, where the entry of its request is not settled.
pub fn other_finding_is_stray()
    ensures { OtherFindingIsStray }
{}

/// A verdict that a finding of another configuration says is not borne, unless it is one that is looked up: `post` does not take
/// it.
pub fn other_finding_is_unbacked()
    ensures { OtherFindingIsUnbacked }
{}

/// The tables bear what is posted, under any source: what a reference is settled to, and what is prepared (JVMS SE 8, 5.3 to
/// 5.4.3).
pub fn fitting_is_borne()
    ensures borne { FittingIsBorne }
    ensures settled { PostedIsSettled }
    ensures linked { PostedLinkIsPrepared }
{}

/// What an entry is settled to may be the answer of each request that resolves it, under any source (JVMS SE 8, 5.4.3).
pub fn settled_is_backed()
    ensures { SettledIsBacked }
{}
