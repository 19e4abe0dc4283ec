//! Run-time packages (JVMS SE 8, 5.3).

ghost use Rattle.std.specs.Prelude.{◌≡◌, IfOk, OnOk};
ghost use Rattle.std.specs.List.{list_any};
ghost use Rattle.indexmap.specs.IndexSet.{contains};
ghost use Rattle.cl_preparation.specs.Packages.{Opens, package_of_class, same_packages};

use cl_model::{Class, LoaderId};
use cl_names::{Name, Seed};
use indexmap::IndexSet;
use std::alloc::{AllocError, Global};

/// A run-time package: the name of the package, and the loader that defined its classes (JVMS SE 8, 5.3).
#[derive(Debug, PartialEq, Eq, Hash)]
pub(crate) struct Package {
    loader: LoaderId,
    name: Name,
}

impl Drop for Package {
    fn drop(self) {
        let Package { loader: _, name: _ } = self;
    }
}

impl Package {
    /// The package of a class.
    pub fn of(alloc: Global, class: &Class) -> Result<Package, AllocError>
        ensures { IfOk result (λ p. p ≡ package_of_class class.now) }
    {
        // The front of a name up to a `/` is one too, so that only memory refuses it.
        let name = Name::any(alloc, class.name.package()).map_err(|_| AllocError)?;
        Ok(Package {
            loader: class.loader,
            name,
        })
    }

    /// Whether it is the package of this name and loader.
    fn is(&self, loader: LoaderId, name: &[u8]) -> bool
        ensures { result ≡ same_packages (record { loader = loader; name = name.now }) self.now }
    {
        loader == self.loader && name == self.name.bytes()
    }
}

/// Packages, each once.
pub(crate) type Packages = IndexSet<Package, Seed>;

/// So many are compared one by one: to make a package and to hash it takes longer.
const FEW_PACKAGES: usize = 8;

/// Whether one of these is the package of this name and loader.
fn any_is(packages: &[Package], loader: LoaderId, name: &[u8]) -> bool
    ensures { result ≡ list_any (same_packages (record { loader = loader; name = name.now }))
        packages.now }
{
    packages.iter().any(|package| package.is(loader, name))
}

/// Whether one of these is the package of a class.
pub(crate) fn has_package_of(
    alloc: Global,
    packages: &Packages,
    class: &Class,
) -> Result<bool, AllocError>
    ensures { IfOk result (λ b. b
        ≡ contains same_packages packages.now (package_of_class class.now)) }
{
    if packages.len() <= FEW_PACKAGES {
        let few = packages.as_slice();
        return Ok(any_is(few, class.loader, class.name.package()));
    }
    let package = Package::of(alloc, class)?;
    Ok(packages.contains(&package))
}

/// Adds a package.
pub(crate) fn open(packages: &mut Packages, added: Package) -> Result<(), AllocError>
    ensures { OnOk result (Opens packages.old packages.new added) }
{
    match packages.insert(added) {
        Ok(_) => Ok(()),
        Err(_) => Err(AllocError),
    }
}
