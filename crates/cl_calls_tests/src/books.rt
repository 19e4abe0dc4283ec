//! Books of constraints, each asked through the trait.

use cl_constraints::{BookFault, ConstraintBook, GroupedBook, PlainBook};
use cl_model::LoaderId;
use cl_names::{Name, Seed};
use std::alloc::{AllocError, Global};
use std::test::Fail;

const APP: u16 = 1;

const PLUG: u16 = 2;

const KID: u16 = 3;

/// Loaders of the sequences that are drawn.
const LOADERS: u16 = 8;

/// Loaders that a refusal is seen to leave as they were.
const WATCHED: u16 = 8;

/// What a book is asked: to enter what a loader records, and its home, or to impose an equality of two loaders. (A table of calls
/// that carry numbers costs the proof of whoever reads it minutes, one of tuples seconds.)
#[derive(Clone, Copy, PartialEq, Eq)]
enum Call {
    Enter,
    Impose,
}

use Call::{Enter, Impose};

/// What it answers; no record is entered where the loader has one.
#[derive(Clone, Copy, PartialEq, Eq)]
enum Answer {
    Recorded,
    Entered,
    Added,
    Stands,
    Violates,
}

use Answer::{Added, Entered, Recorded, Stands, Violates};

/// The names of the sequences: `p/T`, `p/U` and `q/T`.
#[derive(Clone, Copy)]
enum Named {
    T,
    U,
    Other,
}

use Named::{Other, T, U};

fn name_of(alloc: Global, name: Named) -> Result<Name, AllocError> {
    let bytes: &[u8] = match name {
        T => b"p/T",
        U => b"p/U",
        Other => b"q/T",
    };
    match Name::class(alloc, bytes) {
        Ok(name) => Ok(name),
        Err(_) => Err(AllocError),
    }
}

/// What looks tell of a name and two loaders.
#[derive(Clone, Copy, PartialEq, Eq)]
struct Seen {
    home: Option<LoaderId>,
    admits: bool,
    joined: bool,
}

fn look<B: ConstraintBook>(book: &B, name: &Name, one: LoaderId, other: LoaderId) -> Seen {
    Seen {
        home: book.home(name, one),
        admits: book.admits(name, one, other),
        joined: book.joined(name, one, other),
    }
}

/// A number for what the first loaders record of a name, and which of them are joined.
fn sight<B: ConstraintBook>(book: &B, name: &Name, watched: u16) -> u64 {
    let mut sight = 0u64;
    for one in 0..watched {
        let home = match book.home(name, LoaderId(one)) {
            Some(LoaderId(home)) => u64::from(home) + 1,
            None => 0,
        };
        sight = sight.wrapping_mul(65_537).wrapping_add(home);
        for other in 0..one {
            let joined = book.joined(name, LoaderId(one), LoaderId(other));
            sight = sight.wrapping_mul(3).wrapping_add(u64::from(joined));
        }
    }
    sight
}

/// Records a class. A refused growth hands the name back, and the book can be asked again.
fn enter<B: ConstraintBook>(
    rt: &impl Print,
    alloc: Global,
    book: &mut B,
    watched: u16,
    name: Name,
    loader: LoaderId,
    home: LoaderId,
) -> Result<Answer, Fail> {
    if book.home(&name, loader).is_some() {
        return Ok(Recorded);
    }
    let admits = book.admits(&name, loader, home);
    let before = sight(book, &name, watched);
    let Err(mut back) = book.enter(alloc, name, loader, home) else {
        return Ok(Entered);
    };
    if sight(book, &back.name, watched) != before || book.home(&back.name, loader).is_some() {
        return Err(Fail::new("a refused record left a trace"));
    }
    if back.fault == BookFault::Memory {
        println!(rt; "refused: ConstraintBook::enter")?;
        let Err(again) = book.enter(alloc, back.name, loader, home) else {
            return Ok(Entered);
        };
        back = again;
    }
    match back.fault {
        BookFault::Violates if !admits => Ok(Violates),
        _ => Err(Fail::new("refused what it admits")),
    }
}

/// Makes a name mean the same in two loaders. A refused growth hands the name back, and the book can be asked again.
fn impose<B: ConstraintBook>(
    rt: &impl Print,
    alloc: Global,
    book: &mut B,
    watched: u16,
    name: Name,
    one: LoaderId,
    other: LoaderId,
) -> Result<Answer, Fail> {
    let before = sight(book, &name, watched);
    let mut imposed = book.impose(alloc, name, one, other);
    if let Err(back) = imposed {
        if sight(book, &back.name, watched) != before {
            return Err(Fail::new("a refused equality left a trace"));
        }
        if back.fault != BookFault::Memory {
            return Ok(Violates);
        }
        println!(rt; "refused: ConstraintBook::impose")?;
        imposed = book.impose(alloc, back.name, one, other);
    }
    match imposed {
        Ok(true) => Ok(Added),
        Ok(false) => Ok(Stands),
        Err(_) => Ok(Violates),
    }
}

/// Asks a book about a name and two loaders.
fn ask<B: ConstraintBook>(
    rt: &impl Print,
    alloc: Global,
    book: &mut B,
    watched: u16,
    asked: (Named, Call, u16, u16),
) -> Result<Answer, Fail> {
    let (name, call, one, other) = asked;
    let name = name_of(alloc, name)?;
    let (one, other) = (LoaderId(one), LoaderId(other));
    match call {
        Enter => enter(rt, alloc, book, watched, name, one, other),
        Impose => impose(rt, alloc, book, watched, name, one, other),
    }
}

/// What is asked, of a name and two loaders, and what is answered.
type Row = (Named, Call, u16, u16, Answer);

/// Asks a book rows in order, and compares what is answered.
fn ask_rows<B: ConstraintBook>(
    rt: &impl Print,
    alloc: Global,
    book: &mut B,
    rows: &[Row],
) -> Result<(), Fail> {
    for (name, call, one, other, answer) in rows {
        if ask(rt, alloc, book, WATCHED, (*name, *call, *one, *other))? != *answer {
            return Err(Fail::new("another answer"));
        }
    }
    Ok(())
}

/// What is joined through a third loader, and another name, which is free of it.
const THREE: [Row; 11] = [
    (T, Enter, APP, APP, Entered),
    (T, Impose, APP, PLUG, Added),
    (T, Impose, PLUG, KID, Added),
    (T, Impose, APP, KID, Stands),
    (T, Enter, KID, KID, Violates),
    (T, Enter, PLUG, APP, Entered),
    (U, Enter, KID, KID, Entered),
    (U, Enter, APP, APP, Entered),
    (U, Impose, APP, PLUG, Added),
    (U, Impose, KID, PLUG, Violates),
    (U, Impose, KID, KID, Stands),
];

/// What a chain of 64 loaders answers once all of its pairs are imposed.
const ENDS: [Row; 4] = [
    (T, Impose, 0, 63, Stands),
    (T, Enter, 0, 0, Entered),
    (T, Enter, 63, 63, Violates),
    (T, Enter, 63, 0, Entered),
];

/// Asks a book of a chain of 64 loaders, its pairs imposed in the order of a stride, every second one the other way.
fn ask_chain<B: ConstraintBook>(
    rt: &impl Print,
    alloc: Global,
    book: &mut B,
    stride: u16,
) -> Result<(), Fail> {
    for turn in 0..63u16 {
        let here = turn * (stride % 64) % 63;
        let (one, other) = if turn % 2 == 0 {
            (here, here + 1)
        } else {
            (here + 1, here)
        };
        if ask(rt, alloc, book, WATCHED, (T, Impose, one, other))? != Added {
            return Err(Fail::new("a pair of the chain stood already"));
        }
    }
    ask_rows(rt, alloc, book, &ENDS)
}

/// A number below a bound, drawn from a row of numbers that is always the same.
fn draw(state: &mut u64, bound: u16) -> u16 {
    *state = state
        .wrapping_mul(6_364_136_223_846_793_005)
        .wrapping_add(1_442_695_040_888_963_407);
    // (its first two bytes: a shift and a cast of the number cost a proof of a minute)
    let [first, second, ..] = state.to_be_bytes();
    let drawn = u16::from_be_bytes([first, second]);
    drawn.checked_rem(bound).unwrap_or(0)
}

/// Asks both books one call that is drawn. The answers are the same, and so is what looks tell.
fn ask_drawn(
    rt: &impl Print,
    alloc: Global,
    state: &mut u64,
    grouped: &mut GroupedBook,
    plain: &mut PlainBook,
) -> Result<(), Fail> {
    let named = match draw(state, 3) {
        0 => T,
        1 => U,
        _ => Other,
    };
    let one = draw(state, LOADERS);
    let other = draw(state, LOADERS);
    let call = if draw(state, 2) == 0 { Enter } else { Impose };
    let asked = (named, call, one, other);
    if ask(rt, alloc, grouped, 0, asked)? != ask(rt, alloc, plain, 0, asked)? {
        return Err(Fail::new("the books differ in an answer"));
    }
    let name = name_of(alloc, named)?;
    let (one, other) = (LoaderId(one), LoaderId(other));
    let is_same = look(grouped, &name, one, other) == look(plain, &name, one, other);
    drop(name);
    if is_same {
        Ok(())
    } else {
        Err(Fail::new("the books differ in a look"))
    }
}

/// Asks both books so many calls.
fn ask_calls(
    rt: &impl Print,
    alloc: Global,
    state: &mut u64,
    grouped: &mut GroupedBook,
    plain: &mut PlainBook,
) -> Result<(), Fail> {
    for _ in 0..60 {
        ask_drawn(rt, alloc, state, grouped, plain)?;
    }
    Ok(())
}

/// Asks both books one sequence of 60 calls.
fn ask_both(rt: &impl Print, alloc: Global, state: &mut u64) -> Result<(), Fail> {
    let mut grouped = GroupedBook::new(alloc);
    let mut plain = PlainBook::new(alloc);
    let asked = ask_calls(rt, alloc, state, &mut grouped, &mut plain);
    drop(grouped);
    drop(plain);
    asked
}

/// Asks a book rows in order, and drops it.
fn ask_whole<B: ConstraintBook + Drop>(
    rt: &impl Print,
    alloc: Global,
    mut book: B,
    rows: &[Row],
) -> Result<(), Fail> {
    let asked = ask_rows(rt, alloc, &mut book, rows);
    drop(book);
    asked
}

/// Asks a book of a chain, and drops it.
fn ask_whole_chain<B: ConstraintBook + Drop>(
    rt: &impl Print,
    alloc: Global,
    mut book: B,
    stride: u16,
) -> Result<(), Fail> {
    let asked = ask_chain(rt, alloc, &mut book, stride);
    drop(book);
    asked
}

/// What is joined through a third loader is one class, and another name is free of it.
#[test]
fn constraint_book(rt: HostRuntime) -> Result<(), Fail> {
    let alloc = rt.alloc();
    ask_whole(&rt, alloc, GroupedBook::new(alloc), &THREE)?;
    ask_whole(&rt, alloc, PlainBook::new(alloc), &THREE)
}

/// A chain of 64 loaders is one, in whatever order its pairs are imposed.
#[test]
fn wide_book(rt: HostRuntime) -> Result<(), Fail> {
    let alloc = rt.alloc();
    for stride in [1u16, 62, 5, 25] {
        let grouped = GroupedBook::with_hasher(alloc, Seed::common());
        ask_whole_chain(&rt, alloc, grouped, stride)?;
        let plain = PlainBook::with_hasher(alloc, Seed::common());
        ask_whole_chain(&rt, alloc, plain, stride)?;
    }
    Ok(())
}

/// The two books give the same answers along 2,000 sequences of 60 calls, over 8 loaders and 3 names.
#[test]
fn same_books(rt: HostRuntime) -> Result<(), Fail> {
    let mut state = 5_034u64;
    for _ in 0..2_000 {
        ask_both(&rt, rt.alloc(), &mut state)?;
    }
    Ok(())
}
