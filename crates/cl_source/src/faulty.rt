ghost use Rattle.std.specs.Prelude.{◌≡◌, ◌≢◌, ◌<◌, ◌+◌, ◌-◌, ◌^◌, IfOk, IsOkUnless, IsErrOf};
ghost use Rattle.cl_source.specs.Counts.{Counts, PassesOn};

use crate::source::{Probe, Source, SourceFault};
use cl_model::{LoaderId, Told};
use cl_names::Name;
use std::alloc::Global;
use std::marker::{Model, PhantomData};

/// Another source, of which one read is refused.
pub struct FaultySource<T: Told, S: Source<T>> {
    inner: S,
    /// The read that is refused, counted from 1; with 0 none is.
    at: u64,
    /// The reads until then, that one included; with 0 none is to come.
    until: u64,
    refused: u64,
    of: PhantomData<T>,
}

impl<T: Told, S: Source<T>> Drop for FaultySource<T, S> {
    fn drop(self) {
        let FaultySource {
            inner: _,
            at: _,
            until: _,
            refused: _,
            of: _,
        } = self;
    }
}

impl<T: Told, S: Source<T>> Model for FaultySource<T, S> {
    ghost use Rattle.cl_source.specs.Counts.{Faulting};

    ghost Value = { Faulting S };

    ghost view = { λ f.
        record { at = f.at; until = f.until; refused = f.refused; inner = f.inner } };
}

impl<T: Told, S: Source<T>> FaultySource<T, S> {
    /// The source whose `at`-th read, counted from 1, is refused as `Device`, and so is that of each `another`; with
    /// 0 none is.
    pub fn new(inner: S, at: u64) -> FaultySource<T, S>
        ensures { result ≡ record { at = at; until = at; refused = 0; inner = inner } }
    {
        FaultySource {
            inner,
            at,
            until: at,
            refused: 0,
            of: PhantomData,
        }
    }
}

impl<T: Told, S: Source<T>> Source<T> for FaultySource<T, S> {
    ghost refused = { λ s. s.refused };

    ghost gives = { λ s loader name result. PassesOn (S.gives s.inner loader name) s result };

    /// What the inner source answers, but for the one read that is refused, and once the count is at its end: then it is not
    /// asked, and stays as it was.
    fn read(
        &mut self,
        alloc: Global,
        loader: LoaderId,
        name: &Name,
    ) -> Result<Probe<T>, SourceFault>
        // What each source promises.
        ensures asked { IfOk result (λ p. (p.loader ≡ loader) × (p.name ≡ name.now)) }
        ensures counts { Counts self.old.refused self.new.refused result }
        ensures spent { self.old.refused + 1 ≡ 2 ^ 64 → IsErrOf result SourceFault.Device }
        ensures gives { PassesOn (S.gives self.old.inner loader name.now) self.old result }
        // Where the inner source is not asked, and where it is.
        ensures refused { self.old.until ≡ 1 → IsErrOf result SourceFault.Device
            × (self.new.inner ≡ self.old.inner) }
        ensures stays { self.old.refused + 1 ≡ 2 ^ 64 → self.new.inner ≡ self.old.inner }
        ensures others { self.old.until ≢ 1 → self.old.refused + 1 < 2 ^ 64
            → Counts (S.refused self.old.inner) (S.refused self.new.inner) result }
        // How far the read is that is refused.
        ensures nearer { self.new.until ≡ self.old.until - 1 }
        ensures at { self.new.at ≡ self.old.at }
    {
        let refuses = self.until == 1;
        self.until = self.until.saturating_sub(1);
        if self.refused == u64::MAX {
            return Err(SourceFault::Device);
        }
        let read = if refuses {
            Err(SourceFault::Device)
        } else {
            self.inner.read(alloc, loader, name)
        };
        if let Err(SourceFault::Device | SourceFault::TooLarge) = read {
            self.refused += 1;
        }
        read
    }

    fn failures(&self) -> u64 {
        self.refused
    }

    fn another(&self, alloc: Global) -> Result<Self, SourceFault>
        ensures fault { IsOkUnless result SourceFault.Memory }
        ensures begins { IfOk result (λ s. (s.at ≡ self.now.at) × (s.until ≡ self.now.at)
            × (s.refused ≡ 0)) }
        ensures inner { IfOk result (λ s. S.refused s.inner ≡ 0) }
    {
        Ok(FaultySource::new(self.inner.another(alloc)?, self.at))
    }
}
