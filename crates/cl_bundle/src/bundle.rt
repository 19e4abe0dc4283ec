ghost use Rattle.std.specs.Prelude.{◌≡◌, ◌++◌, IfOk, IfErr, OnOk, None, Some, length, map, option_map, string_bytes};
ghost use Rattle.std.specs.List.{concat};
ghost use Rattle.cl_config.specs.Views.{names_of};
ghost use Rattle.cl_lines.specs.Lines.{words_of, stated_lines};
ghost use Rattle.cl_config.specs.Scripts.{HasLoaders};
ghost use Rattle.cl_bundle.specs.Bundles.{BundleOf, ConfigFaultOf, ContentsOf, PutOf};
ghost use Rattle.cl_bundle.specs.Contents.{FaultOf, TextWritten, Written, all_digits, class_text, hex_bytes, is_hex, line_digits};
ghost use Rattle.cl_bundle.specs.Cuts.{cut_part};
ghost use Rattle.cl_bundle.specs.Faults.{UnlessMemory};

use crate::fault::BundleFault;
use crate::sections::{self, ClassSection};
use cl_config::{Config, ConfigError, Script};
use cl_lines::{Stated, Words};
use cl_names::Seed;
use cl_source::{MemorySource, SourceFault};
use cl_writer::{AssembleFault, WriteFault, assemble_with_hasher, write};
use hex::FromHexError;
use std::alloc::{AllocError, Global};

/// A bundle: the loaders, what each has for its names, and what is asked.
#[derive(Drop)]
pub struct Bundle {
    pub config: Config,
    pub source: MemorySource,
    pub script: Script,
}

/// Reads a bundle from its front: section lines, configuration, class sections in order, script. The first thing that
/// is wrong is `BadLine`, with its line, `Config` in the configuration, `Class` in the assembler text of a class, or in the
/// script `Script`. Where memory is out it is `Memory`, or the assembler's or the script's own fault. What is made of the
/// bundle finds names in tables that hash with this seed; no answer depends on it.
pub fn read(alloc: Global, seed: Seed, text: &str) -> Result<Bundle, BundleFault>
    ensures bundle { BundleOf text.now result }
    ensures loaders { IfOk result (λ b. HasLoaders (length b.config.loaders) b.script.requests) }
{
    let sections = sections::cut(alloc, text)?;
    let config = read_config(alloc, seed, sections.config)?;
    let source = read_classes(alloc, &config, sections.classes)?;
    let script = Script::read(alloc, &config, sections.script)?;
    Ok(Bundle {
        config,
        source,
        script,
    })
}

fn read_config(alloc: Global, seed: Seed, text: &str) -> Result<Config, BundleFault>
    ensures { ConfigFaultOf text.now result }
{
    match Config::read(alloc, text) {
        Ok(config) => Ok(config.with_seed(seed)),
        Err(ConfigError::Memory) => Err(BundleFault::Memory),
        Err(ConfigError::Fault(fault)) => Err(BundleFault::Config(fault)),
    }
}

/// The source of what the class sections write, each in turn.
fn read_classes(
    alloc: Global,
    config: &Config,
    classes: Vec<ClassSection<'_>>,
) -> Result<MemorySource, BundleFault>
    ensures { ContentsOf (names_of config.now) (map cut_part classes.entry.items) result }
{
    let mut source = MemorySource::with_hasher(alloc, config.seed());
    for section in classes {
        put(alloc, config, section, &mut source)?;
    }
    Ok(source)
}

/// Puts the content of a class section into a source. Its loader is looked at first, then whether this loader and name
/// have a section already, and then its content.
fn put(
    alloc: Global,
    config: &Config,
    section: ClassSection<'_>,
    source: &mut MemorySource,
) -> Result<(), BundleFault>
    ensures { PutOf (names_of config.now) (cut_part section.entry) source.old result source.new }
{
    let line = section.line;
    let Some(loader) = config.loader(section.loader) else {
        return Err(BundleFault::BadLine(line));
    };
    if source.has(loader, &section.name) {
        return Err(BundleFault::BadLine(line));
    }
    let bytes = class_bytes(alloc, config.seed(), &section)?;
    match source.put(alloc, loader, section.name, bytes) {
        Ok(()) => Ok(()),
        Err(refused) => Err(match refused.fault {
            SourceFault::Memory => BundleFault::Memory,
            _ => BundleFault::BadLine(line),
        }),
    }
}

/// The bytes that a class section writes: in hexadecimal, where its first line begins so, else as assembler text.
fn class_bytes(
    alloc: Global,
    seed: Seed,
    section: &ClassSection<'_>,
) -> Result<Vec<u8>, BundleFault>
    ensures ok { IfOk result (λ bytes. Written (cut_part section.now) (Ok bytes.items)) }
    ensures err { IfErr result (λ fault. UnlessMemory fault (Written (cut_part section.now)
        (Err fault))) }
{
    if !is_hex(section.body) {
        return text_bytes(alloc, seed, section);
    }
    match hex_bytes(alloc, section.body) {
        Ok(bytes) => Ok(bytes),
        Err(HexFault::Memory) => Err(BundleFault::Memory),
        Err(HexFault::Bad) => Err(BundleFault::BadLine(section.line)),
    }
}

/// Whether the first line that is not skipped begins with `@hex`.
fn is_hex(body: &str) -> bool
    ensures { result ≡ is_hex (stated_lines body.now) }
{
    match Stated::new(body).next() {
        Some(line) => Words::new(line.text).next() == Some("@hex"),
        None => false,
    }
}

/// The bytes of the class that a section of assembler text describes.
#[tactic(auto, using(crate::proofs::Refusals::refused_text))]
fn text_bytes(alloc: Global, seed: Seed, section: &ClassSection<'_>) -> Result<Vec<u8>, BundleFault>
    ensures ok { IfOk result (λ bytes. TextWritten (cut_part section.now) (Ok bytes.items)) }
    ensures err { IfErr result (λ fault. UnlessMemory fault (TextWritten (cut_part section.now)
        (Err fault))) }
{
    match assemble_with_hasher(alloc, seed, section.body) {
        Ok(file) => match write(alloc, &file) {
            Ok(bytes) => Ok(bytes),
            Err(WriteFault::Memory) => Err(BundleFault::Memory),
        },
        Err(fault) => Err(class_fault(alloc, section, fault)),
    }
}

/// The fault of a section whose assembler text has this one.
fn class_fault(alloc: Global, section: &ClassSection<'_>, fault: AssembleFault) -> BundleFault
    ensures { FaultOf (cut_part section.now) fault result }
{
    match class_text(alloc, section) {
        Ok(class) => BundleFault::Class { class, fault },
        Err(_) => BundleFault::Memory,
    }
}

/// The text `N@L` of a section: its name in escaped text, and its loader.
fn class_text(alloc: Global, section: &ClassSection<'_>) -> Result<String, AllocError>
    ensures { IfOk result (λ text. string_bytes text ≡ class_text (cut_part section.now)) }
{
    let mut text = section.name.text(alloc).map_err(|_| AllocError)?;
    text.push_str("@")?;
    text.push_str(section.loader)?;
    Ok(text)
}

/// Why the lines of a class section give no bytes.
#[derive(Clone, Copy)]
enum HexFault {
    Memory,
    /// There is a line that does not begin with `@hex`, or what follows is not hexadecimal.
    Bad,
}

impl From<AllocError> for HexFault {
    ghost use Rattle.cl_bundle.specs.declared.bundle.HexFault.TheVariants.{Memory};

    ghost from_gives = { λ _ e. e ≡ Memory };

    fn from(_error: AllocError) -> HexFault {
        HexFault::Memory
    }
}

/// The bytes that the `@hex` lines of a class section write.
fn hex_bytes(alloc: Global, body: &str) -> Result<Vec<u8>, HexFault>
    ensures ok { IfOk result (λ bytes. hex_bytes (stated_lines body.now) ≡ Some bytes.items) }
    ensures bad { result ≡ Err HexFault.Bad → hex_bytes (stated_lines body.now) ≡ None }
{
    let digits = hex_digits(alloc, body)?;
    match hex::decode(alloc, digits.as_str()) {
        Ok(bytes) => Ok(bytes),
        Err(FromHexError::OutOfMemory) => Err(HexFault::Memory),
        Err(_) => Err(HexFault::Bad),
    }
}

/// The words behind `@hex` of all lines that are not skipped, joined.
fn hex_digits(alloc: Global, body: &str) -> Result<String, HexFault>
    ensures ok { IfOk result (λ digits. all_digits (stated_lines body.now)
        ≡ Some (string_bytes digits)) }
    ensures bad { result ≡ Err HexFault.Bad → all_digits (stated_lines body.now) ≡ None }
{
    let mut digits = String::new(alloc);
    for line in Stated::new(body) {
        push_digits(&mut digits, line.text)?;
    }
    Ok(digits)
}

/// Puts the words of a line that stand behind `@hex` to the digits.
fn push_digits(digits: &mut String, line: &str) -> Result<(), HexFault>
    ensures ok { OnOk result (option_map (λ more. string_bytes digits.old ++ more)
        (line_digits (words_of line.now)) ≡ Some (string_bytes digits.new)) }
    ensures bad { result ≡ Err HexFault.Bad → line_digits (words_of line.now) ≡ None }
{
    let mut words = Words::new(line);
    if words.next() != Some("@hex") {
        return Err(HexFault::Bad);
    }
    Ok(push_words(digits, words)?)
}

/// Puts words to the digits.
fn push_words(digits: &mut String, words: Words<'_>) -> Result<(), AllocError>
    ensures { OnOk result (string_bytes digits.new ≡ string_bytes digits.old ++ concat
        (words_of words.entry)) }
{
    for word in words {
        digits.push_str(word)?;
    }
    Ok(())
}
