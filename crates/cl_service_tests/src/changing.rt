//! Scripts served over sources that fail and change, by what is printed of them. That the tables can be trusted then is
//! proved; that a body does not give up where it need not is seen here.

use crate::given::TwoFiles;
use Named::{T, Top};
use cl_config::Config;
use cl_given::{APP, BOOT, LOADERS, Named, PLUG, source};
use cl_model::Untold;
use cl_program::{Asked, OpenDirectories, Options, RunWords, run_asked};
use cl_source::{ChangingSource, FaultySource, Source, SourceFault};
use std::alloc::Global;
use std::io;
use std::process::Abort;
use std::random::RandomSource;
use std::sync::Wait;
use std::test::Fail;
use std::thread::Threads;

/// A source that changes, of which a read may fail.
type Unsteady = FaultySource<Untold, ChangingSource>;

/// A runtime whose directories are such a source.
#[derive(Drop)]
struct UnsteadyRuntime<'a, R> {
    host: &'a R,
    source: Unsteady,
}

impl<R: Threads> Threads for UnsteadyRuntime<'_, R> {}

impl<R: Wait> Wait for UnsteadyRuntime<'_, R> {}

impl<R> RandomSource for UnsteadyRuntime<'_, R> {
    fn fill_bytes(&self, buf: &mut [u8]) -> io::Result<()> {
        buf.fill(1);
        Ok(())
    }
}

impl<R> OpenDirectories for UnsteadyRuntime<'_, R> {
    type Opened = Unsteady;

    fn open(&self, alloc: Global, _config: &Config) -> Result<Unsteady, SourceFault> {
        self.source.another(alloc)
    }
}

const APP_ALONE: &[(u16, Named)] = &[(APP, T)];

const ALL: &[(u16, Named)] = &[(BOOT, Top), (APP, T), (PLUG, T)];

/// Which read fails, with 0 none; what the first reads see, how many they are, and what later ones see; the script, and what
/// is printed.
struct Row {
    fails: u64,
    first: &'static [(u16, Named)],
    reads: u64,
    later: &'static [(u16, Named)],
    script: &'static str,
    lines: &'static str,
}

const ROWS: [Row; 6] = [
    // The request whose read fails is answered so, and the other is served.
    Row {
        fails: 1,
        first: &[],
        reads: 0,
        later: ALL,
        script: "load plug p/T\nload app p/T\n",
        lines: "define java/lang/Object@boot\ninitiate java/lang/Object boot by app\ndefine p/T@app\n1 SourceFault p/T@plug\n2 class p/T@app\n",
    },
    // The class is gone before its loader is asked.
    Row {
        fails: 0,
        first: APP_ALONE,
        reads: 1,
        later: &[],
        script: "load app p/T\n",
        lines: "1 ClassNotFoundException p/T@app\n",
    },
    // Its superclass is not there.
    Row {
        fails: 0,
        first: APP_ALONE,
        reads: 2,
        later: &[],
        script: "load app p/T\n",
        lines: "1 NoClassDefFoundError java/lang/Object@app\n",
    },
    // A class that `plug` has by now is defined by `app`, and stays so.
    Row {
        fails: 0,
        first: APP_ALONE,
        reads: 1,
        later: ALL,
        script: "load plug p/T\nload plug p/T\n",
        lines: "define java/lang/Object@boot\ninitiate java/lang/Object boot by app\ndefine p/T@app\ninitiate p/T app by plug\n1 class p/T@app\n2 class p/T@app\n",
    },
    // With none of its reads the first is not seen.
    Row {
        fails: 0,
        first: APP_ALONE,
        reads: 0,
        later: ALL,
        script: "load plug p/T\nload plug p/T\n",
        lines: "define java/lang/Object@boot\ninitiate java/lang/Object boot by plug\ndefine p/T@plug\n1 class p/T@plug\n2 class p/T@plug\n",
    },
    // A class moves to a loader that has recorded the other loader's: neither that nor an error can be said.
    Row {
        fails: 0,
        first: &[(BOOT, Top), (BOOT, T)],
        reads: 2,
        later: &[(BOOT, Top), (APP, T)],
        script: "load app p/T\nload plug p/T\n",
        lines: "define java/lang/Object@boot\ndefine p/T@boot\ninitiate p/T boot by app\n1 class p/T@boot\n2 OutOfMemory\n",
    },
];

/// Serves a row's script by one worker, and compares history and answers.
fn check_row<R: AllocGlobal + Threads + Wait + Sync + Abort>(
    rt: &R,
    row: &Row,
) -> Result<(), Fail> {
    let alloc = rt.alloc();
    let changing = ChangingSource::new(
        source(alloc, row.first)?,
        source(alloc, row.later)?,
        row.reads,
    );
    let runtime = UnsteadyRuntime {
        host: rt,
        source: FaultySource::new(changing, row.fails),
    };
    let files = TwoFiles {
        config: LOADERS,
        script: row.script,
    };
    let asked = Asked::Run(RunWords {
        config: "loaders.toml",
        script: "script",
        options: Options {
            workers: 1,
            answers: false,
        },
    });
    let mut out = Vec::new(alloc);
    let mut err = Vec::new(alloc);
    let input: &[u8] = b"";
    let status = run_asked(alloc, &runtime, &files, asked, input, &mut out, &mut err);
    assert_eq!(rt; status, 0);
    assert_eq!(rt; out.as_slice(), row.lines.as_bytes());
    assert!(rt; err.is_empty());
    Ok(())
}

/// One worker's history and answers, whole.
#[test]
fn sources_fail_and_change(rt: HostRuntime) -> Result<(), Fail> {
    for row in &ROWS {
        check_row(&rt, row)?;
    }
    Ok(())
}
