ghost use Rattle.std.specs.Prelude.{◌≡◌, ◌-◌, IfOk, IsOkUnless};
ghost use Rattle.cl_model.specs.Content.{content_at};
ghost use Rattle.cl_source.specs.Changes.{next_content};
ghost use Rattle.cl_source.specs.Counts.{Counts};
ghost use Rattle.cl_source.specs.Told.{GivesContent};

use crate::memory::{MemorySource, Telling};
use crate::source::{Probe, Source, SourceFault};
use cl_model::{LoaderId, Untold};
use cl_names::Name;
use std::alloc::Global;
use std::marker::Model;

/// Two sources in memory, of which the first gives the first reads, and the other all later ones. It tells no content.
pub struct ChangingSource {
    first: Telling<Untold>,
    later: Telling<Untold>,
    /// How many reads the first gives.
    reads: u64,
    /// How many of them are to come.
    left: u64,
}

impl Drop for ChangingSource {
    fn drop(self) {
        let ChangingSource {
            first: _,
            later: _,
            reads: _,
            left: _,
        } = self;
    }
}

impl Model for ChangingSource {
    ghost use Rattle.cl_source.specs.Changes.{Changing};

    ghost Value = { Changing };

    ghost view = { λ c.
        record { first = c.first; later = c.later; reads = c.reads; left = c.left } };
}

impl ChangingSource {
    /// The source whose reads are those of the first, as many as this, and all later ones of the other; and so those of each
    /// `another`.
    pub fn new(first: MemorySource, later: MemorySource, reads: u64) -> ChangingSource
        ensures { result ≡ record { first = first; later = later; reads = reads; left = reads } }
    {
        ChangingSource {
            first: first.tell::<Untold>(),
            later: later.tell::<Untold>(),
            reads,
            left: reads,
        }
    }
}

impl Source<Untold> for ChangingSource {
    ghost refused = { λ _. 0 };

    ghost gives = { λ s loader name result. GivesContent (next_content s) loader name result };

    /// What the content has whose turn it is. It is refused only where memory runs out, and such a read counts too.
    fn read(
        &mut self,
        alloc: Global,
        loader: LoaderId,
        name: &Name,
    ) -> Result<Probe<Untold>, SourceFault>
        ensures asked { IfOk result (λ p. (p.loader ≡ loader) × (p.name ≡ name.now)) }
        ensures counts { Counts 0 0 result }
        ensures told { IfOk result (λ p. p.bytes
            ≡ content_at (next_content self.old) loader name.now) }
        ensures refused { IsOkUnless result SourceFault.Memory }
        // Each read, a refused one too, brings the change nearer by one.
        ensures nearer { self.new ≡ record {
          first = self.old.first;
          later = self.old.later;
          reads = self.old.reads;
          left = self.old.left - 1;
        } }
    {
        if self.left == 0 {
            return self.later.read(alloc, loader, name);
        }
        self.left -= 1;
        self.first.read(alloc, loader, name)
    }

    fn failures(&self) -> u64 {
        0
    }

    fn another(&self, alloc: Global) -> Result<Self, SourceFault>
        ensures refused { IsOkUnless result SourceFault.Memory }
        ensures begins { IfOk result (λ s. s ≡ record {
          first = self.now.first;
          later = self.now.later;
          reads = self.now.reads;
          left = self.now.reads;
        }) }
    {
        Ok(ChangingSource {
            first: self.first.another(alloc)?,
            later: self.later.another(alloc)?,
            reads: self.reads,
            left: self.reads,
        })
    }
}
