ghost use Rattle.std.specs.Prelude.{◌≡◌};
ghost use Rattle.cl_constraints.specs.Records.{home_in};

use cl_model::LoaderId;

/// A loader's record of the name: who defined the class.
#[derive(Clone, Copy, Debug)]
pub(crate) struct Entered {
    pub loader: LoaderId,
    pub home: LoaderId,
}

/// Who defined the class that a loader records.
pub(crate) fn home_among(records: &[Entered], loader: LoaderId) -> Option<LoaderId>
    ensures { result ≡ home_in records.now loader }
{
    records
        .iter()
        .find(|it| it.loader == loader)
        .map(|it| it.home)
}
