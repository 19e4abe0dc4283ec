//! Bundles over readers and writers that refuse, and count what they refused, and over seeds of one's own, by one worker and
//! by several.

use crate::given::{CountingReader, NoFiles, SeededRuntime, writer};
use cl_program::{Asked, Options, RunWords, run_asked};
use std::process::Abort;
use std::sync::Wait;
use std::test::Fail;
use std::thread::Threads;

const BUNDLE: &str =
    "%config\n[[loader]]\nname = \"boot\"\n%class boot java/lang/Object\n@hex cafebabe0000003400030100106a6176612f6c616e672f4f626a6563740700010021000200000000000000000000\n%script\nload boot java/lang/Object\n";

const LINES: &[u8] = b"define java/lang/Object@boot\n1 class java/lang/Object@boot\n";

/// Runs the bundle over a reader and two writers with so much room. A fault is told exactly where its count rose, its
/// line whole unless standard error refused; and what is on standard output is a beginning of the lines.
fn check_rooms<R: AllocGlobal + Threads + Wait + Sync + Abort>(
    rt: &R,
    workers: u32,
    rooms: [usize; 3],
) {
    let [read, written, told] = rooms;
    let runtime = SeededRuntime {
        host: rt,
        random: Some(1),
    };
    let asked = Asked::Bundle(Options {
        workers,
        answers: false,
    });
    let mut unread = 0;
    let input = CountingReader {
        bytes: BUNDLE.as_bytes(),
        room: read,
        is_interrupted: false,
        refused: &mut unread,
    };
    let mut out = writer(rt, written);
    let mut err = writer(rt, told);
    let alloc = rt.alloc();
    let status = run_asked(alloc, &runtime, &NoFiles, asked, input, &mut out, &mut err);
    let line: &[u8] = if unread > 0 {
        b"classlink: cannot read standard input\n"
    } else if out.refused > 0 {
        b"classlink: cannot write\n"
    } else {
        b""
    };
    let lines: &[u8] = if unread > 0 { b"" } else { LINES };
    assert_eq!(rt; status, if line.is_empty() { 0u8 } else { 1 });
    assert_eq!(rt; out.bytes.as_slice(), &lines[..lines.len().min(written)]);
    assert_eq!(rt; err.bytes.as_slice(), &line[..line.len().min(told)]);
    assert_eq!(rt; unread > 0, read <= BUNDLE.len());
    assert_eq!(rt; out.refused > 0, unread == 0 && written < LINES.len());
    assert_eq!(rt; err.refused > 0, told < line.len());
}

#[test]
fn reads_and_writes_fail(rt: HostRuntime) -> Result<(), Fail> {
    let enough = BUNDLE.len() + 1;
    for rooms in [
        [enough, LINES.len(), 0],
        [enough, 0, 100],
        [enough, 40, 24],
        [enough, LINES.len() - 1, 5],
        [enough, 1, 0],
        [0, LINES.len(), 100],
        [100, LINES.len(), 38],
        [enough - 1, LINES.len(), 37],
    ] {
        check_rooms(&rt, 1, rooms);
        check_rooms(&rt, 2, rooms);
    }
    Ok(())
}

const LINEAGES: &str =
    "%config\n[[loader]]\nname = \"boot\"\n%class boot java/lang/Object\nclass 0021 java/lang/Object -\n%class boot p/A\nclass 0021 p/A java/lang/Object\n%class boot p/B\nclass 0021 p/B p/A\nmethod 0001 m ()V\n%class boot p/C\nclass 0021 p/C p/A\nref method p/B m ()V\n%script\nload boot p/C\nload boot p/K\nresolve boot p/C 1\nlink boot p/C\nload boot p/A\nresolve boot p/C 1\n";

const LINEAGE_LINES: &str =
    "define java/lang/Object@boot\ndefine p/A@boot\ndefine p/C@boot\ndefine p/B@boot\nprepare java/lang/Object@boot\nprepare p/A@boot\nprepare p/C@boot\n1 class p/C@boot\n2 ClassNotFoundException p/K@boot\n3 method p/B@boot m ()V\n4 linked p/C@boot\n5 class p/A@boot\n6 method p/B@boot m ()V\n";

/// Two seeds give the same lines, and without a seed nothing is run.
#[test]
fn seeds_change_no_line(rt: HostRuntime) {
    let unread = "classlink: cannot read standard input\n";
    for (random, status, lines, line) in [
        (Some(0), 0, LINEAGE_LINES, ""),
        (Some(255), 0, LINEAGE_LINES, ""),
        (None, 1, "", unread),
    ] {
        let runtime = SeededRuntime { host: &rt, random };
        let alloc = rt.alloc();
        let mut out = Vec::new(alloc);
        let mut err = Vec::new(alloc);
        let asked = Asked::Bundle(Options {
            workers: 1,
            answers: false,
        });
        let input = LINEAGES.as_bytes();
        let found = run_asked(alloc, &runtime, &NoFiles, asked, input, &mut out, &mut err);
        assert_eq!(rt; found, status);
        assert_eq!(rt; out.as_slice(), lines.as_bytes());
        assert_eq!(rt; err.as_slice(), line.as_bytes());
    }
}

/// Without a seed `run` looks at no file, and names the configuration.
#[test]
fn run_without_seed_names_configuration(rt: HostRuntime) {
    let runtime = SeededRuntime {
        host: &rt,
        random: None,
    };
    let alloc = rt.alloc();
    let mut out = Vec::new(alloc);
    let mut err = Vec::new(alloc);
    let asked = Asked::Run(RunWords {
        config: "loaders.toml",
        script: "script",
        options: Options {
            workers: 1,
            answers: false,
        },
    });
    let input: &[u8] = b"";
    let found = run_asked(alloc, &runtime, &NoFiles, asked, input, &mut out, &mut err);
    assert_eq!(rt; found, 1);
    assert!(rt; out.is_empty());
    let line = "classlink: cannot read loaders.toml\n";
    assert_eq!(rt; err.as_slice(), line.as_bytes());
}
