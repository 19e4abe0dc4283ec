//! How many workers serve: a further source is opened for each after the first, and nothing else tells of them.

ghost use Rattle.std.specs.Prelude.{◌≡◌, IfOk, IfErr, IsErrOf, ◌+◌, ◌^◌};

use crate::given::TwoFiles;
use cl_config::Config;
use cl_model::{LoaderId, Untold};
use cl_names::Name;
use cl_program::{Asked, OpenDirectories, Options, RunWords, run_asked};
use cl_source::{MemorySource, Probe, Source, SourceFault, Telling};
use std::alloc::Global;
use std::io;
use std::random::RandomSource;
use std::sync::Wait;
use std::sync::atomic::{AtomicU64, Ordering};
use std::thread::Threads;

/// A source of nothing, of which it is counted how often a further one was asked for. The first so many are had.
#[derive(Drop)]
struct CountedSource<'a> {
    inner: Telling<Untold>,
    opened: &'a AtomicU64,
    most: u64,
}

impl Source<Untold> for CountedSource<'_> {
    ghost refused = { λ _. 0 };

    fn read(
        &mut self,
        alloc: Global,
        loader: LoaderId,
        name: &Name,
    ) -> Result<Probe<Untold>, SourceFault> {
        self.inner.read(alloc, loader, name)
    }

    fn failures(&self) -> u64 {
        0
    }

    fn another(&self, alloc: Global) -> Result<Self, SourceFault> {
        if self.opened.fetch_add(1, Ordering::SeqCst) >= self.most {
            return Err(SourceFault::Memory);
        }
        Ok(CountedSource {
            inner: self.inner.another(alloc)?,
            opened: self.opened,
            most: self.most,
        })
    }
}

/// A runtime whose directories are such a source.
#[derive(Drop)]
struct CountingRuntime<'a, R> {
    host: &'a R,
    opened: &'a AtomicU64,
    most: u64,
}

impl<R: Threads> Threads for CountingRuntime<'_, R> {}

impl<R: Wait> Wait for CountingRuntime<'_, R> {}

impl<R> RandomSource for CountingRuntime<'_, R> {
    fn fill_bytes(&self, buf: &mut [u8]) -> io::Result<()> {
        buf.fill(1);
        Ok(())
    }
}

impl<'a, R> OpenDirectories for CountingRuntime<'a, R> {
    type Opened = CountedSource<'a>;

    fn open(&self, alloc: Global, _config: &Config) -> Result<CountedSource<'a>, SourceFault> {
        Ok(CountedSource {
            inner: MemorySource::new(alloc).tell::<Untold>(),
            opened: self.opened,
            most: self.most,
        })
    }
}

/// Two loads of a loader that has nothing.
const FILES: TwoFiles = TwoFiles {
    config: "[[loader]]\nname = \"boot\"\n",
    script: "load boot p/A\nload boot p/B\n",
};

/// As many workers serve as are asked for; a worker whose source is not to be had is left out, and the others serve.
#[test]
fn workers_are_those_asked_for(rt: HostRuntime) {
    for (workers, further, most) in [
        (1, 0, 64),
        (2, 1, 64),
        (8, 7, 64),
        (64, 63, 64),
        (8, 7, 2),
        (2, 1, 0),
    ] {
        let opened = AtomicU64::new(0);
        let runtime = CountingRuntime {
            host: &rt,
            opened: &opened,
            most,
        };
        let alloc = rt.alloc();
        let mut out = Vec::new(alloc);
        let mut err = Vec::new(alloc);
        let asked = Asked::Run(RunWords {
            config: "loaders.toml",
            script: "script",
            options: Options {
                workers,
                answers: true,
            },
        });
        let input: &[u8] = b"";
        let status = run_asked(alloc, &runtime, &FILES, asked, input, &mut out, &mut err);
        assert_eq!(rt; status, 0);
        let lines: &[u8] =
            b"1 ClassNotFoundException p/A@boot\n2 ClassNotFoundException p/B@boot\n";
        assert_eq!(rt; out.as_slice(), lines);
        assert!(rt; err.is_empty());
        assert_eq!(rt; opened.load(Ordering::SeqCst), further);
    }
}

/// Another number of workers than 1 to 64 makes no report.
#[test]
fn other_numbers_are_refused(rt: HostRuntime) {
    for workers in [0, 65, u32::MAX] {
        let opened = AtomicU64::new(0);
        let runtime = CountingRuntime {
            host: &rt,
            opened: &opened,
            most: 64,
        };
        let alloc = rt.alloc();
        let mut out = Vec::new(alloc);
        let mut err = Vec::new(alloc);
        let asked = Asked::Bundle(Options {
            workers,
            answers: true,
        });
        let input: &[u8] = b"%config\n[[loader]]\nname = \"boot\"\n%script\nload boot p/A\n";
        let status = run_asked(alloc, &runtime, &FILES, asked, input, &mut out, &mut err);
        assert_eq!(rt; status, 1);
        assert!(rt; out.is_empty());
        let line: &[u8] = b"classlink: V1 Workers\n";
        assert_eq!(rt; err.as_slice(), line);
    }
}
