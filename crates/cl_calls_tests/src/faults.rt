//! The printed faults that no run shows, and no contract tells the text of.

use cl_classfile::Fault;
use cl_given::class_name;
use cl_hierarchy::DraftFault;
use cl_model::{Equality, LoaderId, Need};
use cl_registry::RegistryFault;
use cl_source::SourceFault;
use std::alloc::{AllocError, Global};
use std::fmt::Display;
use std::test::Fail;

/// Adds the text of a fault, as a line.
fn tell<F: Display + Drop>(alloc: Global, told: &mut String, fault: F) -> Result<(), AllocError> {
    let text = fault.to_string(alloc);
    drop(fault);
    let text = text?;
    told.push_str(text.as_str())?;
    told.push_str("\n")
}

fn tell_sources(alloc: Global, told: &mut String) -> Result<(), AllocError> {
    tell(alloc, told, SourceFault::Memory)?;
    tell(alloc, told, SourceFault::Device)?;
    tell(alloc, told, SourceFault::TooLarge)?;
    tell(alloc, told, SourceFault::Twice)
}

fn tell_drafts(alloc: Global, told: &mut String) -> Result<(), AllocError> {
    tell(alloc, told, DraftFault::Format(Fault::Trailing))?;
    tell(alloc, told, DraftFault::Version)?;
    tell(alloc, told, DraftFault::OtherName)
}

fn violation(alloc: Global) -> Result<RegistryFault, AllocError> {
    Ok(RegistryFault::Violates(Need::Equal(Equality {
        name: class_name(alloc, b"p/T")?,
        one: LoaderId(0),
        other: LoaderId(1),
    })))
}

fn tell_registries(alloc: Global, told: &mut String) -> Result<(), AllocError> {
    tell(alloc, told, RegistryFault::Memory)?;
    tell(alloc, told, RegistryFault::Stray)?;
    tell(alloc, told, violation(alloc)?)?;
    tell(alloc, told, RegistryFault::AlreadyPosted)?;
    tell(alloc, told, RegistryFault::NotYet)
}

#[test]
fn printed_faults(rt: HostRuntime) -> Result<(), Fail> {
    let alloc = rt.alloc();
    let mut told = String::new(alloc);
    tell_sources(alloc, &mut told)?;
    assert!(rt; told.as_str() == "S0 Memory\nS1 Device\nS2 TooLarge\nS3 Twice\n");
    let mut told = String::new(alloc);
    tell_drafts(alloc, &mut told)?;
    assert!(rt; told.as_str() == "H1 Format F4 Trailing\nH2 Version\nH3 OtherName\n");
    let mut told = String::new(alloc);
    tell_registries(alloc, &mut told)?;
    assert!(rt; told.as_str() == "B0 Memory\nB1 Stray\nB2 Violates\nB3 AlreadyPosted\nB4 NotYet\n");
    Ok(())
}
