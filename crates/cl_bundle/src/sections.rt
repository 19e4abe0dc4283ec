ghost use Rattle.std.specs.Prelude.{◌≡◌, ◌<◌, ◌++◌, ◌∷◌, [], List, ℕ, length, OnOk, IfSome, IfNone};
ghost use Rattle.cl_lines.specs.Lines.{CutsLine, words_of, plain_line};
ghost use Rattle.cl_bundle.specs.Sections.{is_config};
ghost use Rattle.cl_bundle.specs.Cuts.{BodyOf, CutOf, OpeningOf, SectionLineOf};

use crate::fault::BundleFault;
use cl_lines::{Line, Lines, Words, is_skipped};
use cl_names::{Name, class_name};
use std::alloc::{AllocError, Global};

/// The bytes of a class, as a bundle has them.
#[derive(Drop)]
pub struct ClassSection<'a> {
    /// The line of `%class`, counted from 1.
    pub line: usize,
    pub loader: &'a str,
    pub name: Name,
    /// The lines up to the next section line.
    pub body: &'a str,
}

/// The sections of a bundle, as they stand in its text.
#[derive(Drop)]
pub struct Sections<'a> {
    pub config: &'a str,
    pub classes: Vec<ClassSection<'a>>,
    /// What follows the line `%script`.
    pub script: &'a str,
}

/// The lines of a section, and the section line that ends it.
#[derive(Drop)]
struct Body<'a> {
    text: &'a str,
    end: End<'a>,
}

/// A section line: of a class, with its number, loader and name, or of the script.
#[derive(Drop)]
enum End<'a> {
    Class(usize, &'a str, Name),
    Script,
}

/// Cuts a bundle into its sections, and finds the first section line that is wrong.
pub fn cut<'a>(alloc: Global, text: &'a str) -> Result<Sections<'a>, BundleFault>
    ensures { CutOf text.entry.now result }
{
    let mut lines = Lines::new(text);
    take_config_line(&mut lines)?;
    let Body {
        text: config,
        mut end,
    } = next_body(alloc, &mut lines)?;
    let mut classes = Vec::new(alloc);
    while let End::Class(line, loader, name) = end {
        let body = next_body(alloc, &mut lines)?;
        let section = ClassSection {
            line,
            loader,
            name,
            body: body.text,
        };
        push(&mut classes, section)?;
        end = body.end;
    }
    Ok(Sections {
        config,
        classes,
        script: lines.rest(),
    })
}

fn push<'a>(
    classes: &mut Vec<ClassSection<'a>>,
    section: ClassSection<'a>,
) -> Result<(), AllocError>
    ensures { OnOk result (classes.new.items ≡ classes.old.items ++ section.entry ∷ []) }
{
    classes.push(section)?;
    Ok(())
}

/// The next line, which takes something off the text.
fn next_line<'a>(lines: &mut Lines<'a>) -> Option<Line<'a>>
    ensures cut { IfSome result
        (λ l. CutsLine lines.old (plain_line l) lines.new) }
    ensures less { IfSome result (λ _. length lines.new.text < length lines.old.text) }
    ensures end { IfNone result (lines.old.text ≡ []) }
{
    lines.next()
}

/// Takes off the line `%config`, which only skipped lines may precede, with those.
fn take_config_line(lines: &mut Lines<'_>) -> Result<(), BundleFault>
    ensures { OpeningOf lines.old result lines.new }
{
    while let Some(line) = next_line(lines) {
        if !is_skipped(line.text) {
            return if is_config(line.text) {
                Ok(())
            } else {
                Err(BundleFault::BadLine(line.number))
            };
        }
    }
    Err(BundleFault::BadLine(0))
}

/// Whether a line is `%config` alone.
fn is_config(line: &str) -> bool
    ensures { result ≡ is_config (words_of line.now) }
{
    let mut words = Words::new(line);
    words.next() == Some("%config") && words.next().is_none()
}

/// The lines up to the next section line, and that line.
#[tactic(auto, using(crate::proofs::Cutting::parts_of_line))]
fn next_body<'a>(alloc: Global, lines: &mut Lines<'a>) -> Result<Body<'a>, BundleFault>
    ensures body { BodyOf lines.old result lines.new }
    ensures less { OnOk result (length lines.new.text < length lines.old.text) }
{
    let start = lines.rest();
    loop {
        let here = lines.rest();
        let Some(line) = lines.next() else {
            return Err(BundleFault::BadLine(0));
        };
        if let Some(end) = section_line(alloc, line.number, line.text)? {
            let text = before(start, here);
            return Ok(Body { text, end });
        }
    }
}

/// What precedes `rest` in a text that ends in it.
fn before<'a>(text: &'a str, rest: &str) -> &'a str
    requires { (front : List ℕ) × (text.now ≡ front ++ rest.now) }
    ensures { text.now ≡ result.now ++ rest.now }
{
    let (front, _) = text.split_at(text.len() - rest.len());
    front
}

/// The section line that a line is, if it is one.
fn section_line<'a>(
    alloc: Global,
    number: usize,
    line: &'a str,
) -> Result<Option<End<'a>>, BundleFault>
    ensures { SectionLineOf number line.entry.now result }
{
    let mut words = Words::new(line);
    match words.next() {
        Some("%class") => match (words.next(), words.next(), words.next()) {
            (Some(loader), Some(name), None) => match class_name(alloc, name)? {
                Some(name) => Ok(Some(End::Class(number, loader, name))),
                None => Err(BundleFault::BadLine(number)),
            },
            _ => Err(BundleFault::BadLine(number)),
        },
        Some("%script") if words.next().is_none() => Ok(Some(End::Script)),
        Some("%script" | "%config") => Err(BundleFault::BadLine(number)),
        _ => Ok(None),
    }
}
