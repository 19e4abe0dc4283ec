//! The lines of a text, by what they say.

ghost use Rattle.std.specs.Prelude.{◌≡◌, ◌&&◌, OnOk, is_some};
ghost use Rattle.cl_lines.specs.Lines.{stated_from, stated_lines};
ghost use Rattle.cl_writer.specs.Assemblies.{is_version, lists_of, version_of, with_said, LinesOf, RestOf};

use crate::fault::AssembleFault;
use crate::item::Item;
use crate::statement::{ClassLine, MemberLine, Statement, class_line, said_by};
use cl_classfile::Version;
use cl_lines::Stated;
use cl_names::Name;
use std::alloc::{AllocError, Global};

/// The version of a text that says none, which is not printed.
pub const DEFAULT_VERSION: Version = Version {
    major: 52,
    minor: 0,
};

/// The lines of a class, those of each kind in order.
#[derive(Debug, Drop)]
pub struct Assembly {
    pub class: ClassLine,
    /// The version that a line says, if one does.
    pub version: Option<Version>,
    pub interfaces: Vec<Name>,
    pub fields: Vec<MemberLine>,
    pub methods: Vec<MemberLine>,
    /// The first entries of the pool.
    pub references: Vec<Item>,
}

impl Assembly {
    /// The version: 52.0 where no line says one.
    pub fn version(&self) -> Version
        ensures { result ≡ version_of (lists_of self.now) }
    {
        self.version.unwrap_or(DEFAULT_VERSION)
    }
}

/// Reads the lines of a text: first the line of the class, then lines of the other kinds. `BadLine` of the first line
/// that is none, or a second version, and 0 where all are skipped; `Memory`.
pub fn read_lines(alloc: Global, text: &str) -> Result<Assembly, AssembleFault>
    ensures { LinesOf (stated_lines text.now) result }
{
    let mut lines = Stated::new(text);
    let Some(first) = lines.next() else {
        return Err(AssembleFault::BadLine(0));
    };
    let Some(class) = class_line(alloc, first.text)? else {
        return Err(AssembleFault::BadLine(first.number));
    };
    read_rest(alloc, class, lines)
}

/// Reads the lines behind that of the class.
fn read_rest(alloc: Global, class: ClassLine, lines: Stated<'_>) -> Result<Assembly, AssembleFault>
    ensures { RestOf class (stated_from lines.entry.number lines.entry.text) result }
{
    let mut assembly = Assembly {
        class,
        version: None,
        interfaces: Vec::new(alloc),
        fields: Vec::new(alloc),
        methods: Vec::new(alloc),
        references: Vec::new(alloc),
    };
    for line in lines {
        let Some(said) = said_by(alloc, line.text)? else {
            return Err(AssembleFault::BadLine(line.number));
        };
        if is_second_version(&assembly, &said) {
            return Err(AssembleFault::BadLine(line.number));
        }
        add(&mut assembly, said)?;
    }
    Ok(assembly)
}

/// Whether a line says a version, and one before it did.
fn is_second_version(assembly: &Assembly, said: &Statement) -> bool
    ensures { result ≡ (is_version said.now && is_some assembly.now.version) }
{
    match said {
        Statement::Version(_) => assembly.version.is_some(),
        _ => false,
    }
}

/// Adds what a line says.
fn add(assembly: &mut Assembly, said: Statement) -> Result<(), AllocError>
    ensures { OnOk result (lists_of assembly.new ≡ with_said (lists_of assembly.old) said) }
{
    match said {
        Statement::Implements(name) => assembly.interfaces.push(name)?,
        Statement::Field(line) => assembly.fields.push(line)?,
        Statement::Method(line) => assembly.methods.push(line)?,
        Statement::Ref(item) => assembly.references.push(item)?,
        Statement::Version(version) => assembly.version = Some(version),
    }
    Ok(())
}
