ghost use Rattle.std.specs.Prelude.{◌≡◌, ◌+◌, ◌^◌, ℕ, List, Result, IfOk, IsOkUnless, IsErrOf, ⊤};
ghost use Rattle.cl_source.specs.Views.{Found};
ghost use Rattle.cl_source.specs.Told.{IsTold};

use cl_model::{LoaderId, Told};
use cl_names::Name;
use std::alloc::{AllocError, Global};
use std::marker::{Model, PhantomData};
use std::sync::Arc;
use thiserror::Error;

/// The bytes of a class file.
#[derive(Debug)]
pub struct ClassBytes {
    items: Vec<u8>,
}

impl Drop for ClassBytes {
    fn drop(self) {
        let ClassBytes { items: _ } = self;
    }
}

impl Model for ClassBytes {
    ghost use Rattle.std.specs.Prelude.{ℕ, List};

    ghost Value = { List ℕ };

    ghost view = { λ b. b.items.items };
}

impl From<Vec<u8>> for ClassBytes {
    ghost from_gives = { λ v b. b ≡ v.items };

    fn from(items: Vec<u8>) -> ClassBytes {
        ClassBytes { items }
    }
}

impl ClassBytes {
    /// The bytes.
    pub fn as_slice(&self) -> &[u8]
        ensures { result.now ≡ self.now }
    {
        self.items.as_slice()
    }

    /// The bytes, taken out.
    pub fn into_vec(self) -> Vec<u8>
        ensures { result.items ≡ self }
    {
        let ClassBytes { items } = self;
        items
    }
}

/// What stands for a loader and a name.
#[derive(Debug, Drop)]
pub enum Outcome {
    Found(Arc<ClassBytes>),
    Absent,
}

/// What a source found for a loader and a name: where it tells a content, just what that has.
pub struct Probe<T: Told> {
    loader: LoaderId,
    name: Name,
    outcome: Outcome,
    of: PhantomData<T>,
}

impl<T: Told> Drop for Probe<T> {
    fn drop(self) {
        let Probe {
            loader: _,
            name: _,
            outcome: _,
            of: _,
        } = self;
    }
}

impl<T: Told> Model for Probe<T> {
    ghost use Rattle.cl_source.specs.Views.{Found};
    ghost use Rattle.cl_source.specs.Told.{IsTold};
    ghost use Rattle.cl_source.specs.Outcomes.{bytes_of};

    ghost Value = { Found };

    ghost view = { λ p. record { loader = p.loader; name = p.name; bytes = bytes_of p.outcome } };

    ghost invariant = { λ p. IsTold T.told p.loader p.name (bytes_of p.outcome) };
}

impl<T: Told> Probe<T> {
    ghost use Rattle.cl_source.specs.Outcomes.{bytes_of};

    /// What was found, for sources of this crate.
    pub(crate) fn new(loader: LoaderId, name: Name, outcome: Outcome) -> Probe<T>
        requires { IsTold T.told loader name (bytes_of outcome) }
        ensures { result ≡ record { loader = loader; name = name; bytes = bytes_of outcome } }
    {
        Probe {
            loader,
            name,
            outcome,
            of: PhantomData,
        }
    }

    /// The loader that was asked.
    pub fn loader(&self) -> LoaderId
        ensures { result ≡ self.now.loader }
    {
        self.loader
    }

    /// The name that was asked for.
    pub fn name(&self) -> &Name
        ensures { result.now ≡ self.now.name }
    {
        &self.name
    }

    /// What was found.
    pub fn outcome(&self) -> &Outcome
        ensures outcome { bytes_of result.now ≡ self.now.bytes }
        ensures told { IsTold T.told self.now.loader self.now.name self.now.bytes }
    {
        &self.outcome
    }
}

/// Why a source did not answer.
#[derive(Clone, Copy, Debug, PartialEq, Eq, Error)]
pub enum SourceFault {
    #[error("S0 Memory")]
    Memory,
    #[error("S1 Device")]
    Device,
    #[error("S2 TooLarge")]
    TooLarge,
    #[error("S3 Twice")]
    Twice,
}

impl From<AllocError> for SourceFault {
    ghost use Rattle.cl_source.specs.declared.source.SourceFault.TheVariants.{Memory};

    ghost from_gives = { λ _ e. e ≡ Memory };

    fn from(_e: AllocError) -> SourceFault {
        SourceFault::Memory
    }
}

/// Gives the bytes that each loader's own content has for a name (JVMS SE 8, 5.3.2).
pub trait Source<T: Told>: Drop {
    ghost use Rattle.cl_source.specs.Counts.{Counts};
    ghost use Rattle.cl_source.specs.declared.source.SourceFault.{SourceFault};

    /// How many reads the source has refused for another cause than memory.
    ghost refused: { Self → ℕ };

    /// What a read of a loader's name may answer, where a source says more of it than what it counts.
    ghost gives: { Self → ℕ → List ℕ → Result Found SourceFault → Type 0 } = { λ _ _ _ _. ⊤ };

    /// What stands for a loader and a name. Once the count of failures is at its end, every read is `Device`.
    fn read(
        &mut self,
        alloc: Global,
        loader: LoaderId,
        name: &Name,
    ) -> Result<Probe<T>, SourceFault>
        ensures asked { IfOk result (λ p. (p.loader ≡ loader) × (p.name ≡ name.now)) }
        ensures counts { Counts (refused self.old) (refused self.new) result }
        ensures spent { refused self.old + 1 ≡ 2 ^ 64 → IsErrOf result SourceFault.Device }
        ensures gives { gives self.old loader name.now result };

    /// How many reads were refused for another cause than memory, at most 2^64 - 1.
    fn failures(&self) -> u64
        ensures { result ≡ refused self.now };

    /// A further source of the same content, with a count of its own. Only memory refuses it. Where `T` tells a content,
    /// both give just that; what a further source gives where nothing is told, each source says for itself.
    fn another(&self, alloc: Global) -> Result<Self, SourceFault>
        ensures fault { IsOkUnless result SourceFault.Memory }
        ensures own { IfOk result (λ s. refused s ≡ 0) };
}
