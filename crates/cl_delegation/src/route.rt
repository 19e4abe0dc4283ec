//! Whose own content is asked for a name.

ghost use Rattle.std.specs.Prelude.{◌≡◌, ◌<◌, [], ℕ, List, All, IfOk, IfSome, OnOk, length, find, nat_eq, slice_get};
ghost use Rattle.cl_config.specs.Views.{Configured};
ghost use Rattle.std.specs.List.{starts_with};
ghost use Rattle.std.specs.Option.{option_map};
ghost use Rattle.cl_model.specs.Homes.{is_java};
ghost use Rattle.cl_config.specs.Loaders.{loaders_in};
ghost use Rattle.cl_model.specs.Probes.{first_places, route, route_from};
ghost use Rattle.cl_delegation.specs.Walks.{AllIn, AreMarked, IsLoaderWalk, added, is_child_first, own};

use cl_config::{Config, Import, Order};
use cl_model::LoaderId;
use cl_names::Name;
use std::alloc::{AllocError, Global};

/// What was asked so far.
#[derive(Drop)]
struct Walk {
    route: Vec<LoaderId>,
    /// Of each loader, whether it is on the route.
    asked: Vec<bool>,
    /// Of each loader, whether its whole search is.
    done: Vec<bool>,
}

/// The loaders whose own content is asked for a name that this loader is asked for, in order and each once, while each
/// lacks it.
pub(crate) fn find_route(
    alloc: Global,
    config: &Config,
    loader: LoaderId,
    name: &Name,
) -> Result<Vec<LoaderId>, AllocError>
    requires { loader < length config.now.loaders }
    ensures { IfOk result (λ v. v.items ≡ first_places []
        (route (loaders_in config.now) loader name.now)) }
{
    if is_java(name) {
        let mut route = Vec::new(alloc);
        route.push(LoaderId(0))?;
        return Ok(route);
    }
    walk_from(alloc, config, loader, name)
}

/// The same for a name that is none of the platform's.
fn walk_from(
    alloc: Global,
    config: &Config,
    loader: LoaderId,
    name: &Name,
) -> Result<Vec<LoaderId>, AllocError>
    requires { loader < length config.now.loaders }
    ensures { IfOk result (λ v. v.items
        ≡ added [] (route_from (loaders_in config.now) name.now loader)) }
{
    let mut walk = Walk {
        route: Vec::new(alloc),
        asked: vec![in alloc; false; config.count()]?,
        done: vec![in alloc; false; config.count()]?,
    };
    visit(config, loader, name, &mut walk)?;
    let Walk {
        route,
        asked: _,
        done: _,
    } = walk;
    Ok(route)
}

/// Whether a name is one of the platform's.
fn is_java(name: &Name) -> bool
    ensures { result ≡ is_java name.now }
{
    name.bytes().starts_with(b"java/")
}

/// Whether a loader looks at its own content first.
fn is_child_first(config: &Config, loader: LoaderId) -> bool
    requires { loader < length config.now.loaders }
    ensures { IfSome (slice_get config.now.loaders loader) (λ l. result ≡ is_child_first l.order) }
{
    matches!(config.order(loader), Order::ChildFirst)
}

/// Asks a loader where it is wanted, unless it was asked.
fn ask(walk: &mut Walk, loader: LoaderId, wanted: bool) -> Result<(), AllocError>
    requires within { loader < length walk.old.asked.items }
    requires asked { AreMarked walk.old.route.items walk.old.asked.items }
    ensures route { OnOk result (walk.new.route.items ≡ added walk.old.route.items
        (own wanted loader)) }
    ensures asked { OnOk result (AreMarked walk.new.route.items walk.new.asked.items) }
    ensures wide { length walk.new.asked.items ≡ length walk.old.asked.items }
    ensures done { walk.new.done.items ≡ walk.old.done.items }
{
    let place = usize::from(loader.0);
    if wanted && !walk.asked[place] {
        walk.route.push(loader)?;
        walk.asked[place] = true;
    }
    Ok(())
}

/// Marks a loader whose whole search was asked.
fn close(walk: &mut Walk, loader: LoaderId)
    requires within { loader < length walk.old.done.items }
    ensures route { walk.new.route.items ≡ walk.old.route.items }
    ensures walk { (c : Configured) (name : List ℕ) → IsLoaderWalk c name walk.old.route.items
        walk.old.asked.items walk.old.done.items → AllIn walk.old.route.items
        (route_from (loaders_in c) name loader) → IsLoaderWalk c name walk.new.route.items
        walk.new.asked.items walk.new.done.items }
{
    walk.done[usize::from(loader.0)] = true;
}

/// Asks all that a loader leads to, in order, and passes over those that were asked.
fn visit(config: &Config, loader: LoaderId, name: &Name, walk: &mut Walk) -> Result<(), AllocError>
    requires within { loader < length config.now.loaders }
    requires walk { IsLoaderWalk config.now name.now walk.old.route.items walk.old.asked.items
        walk.old.done.items }
    ensures walk { OnOk result (IsLoaderWalk config.now name.now walk.new.route.items
        walk.new.asked.items walk.new.done.items) }
    ensures route { OnOk result (walk.new.route.items ≡ added walk.old.route.items
        (route_from (loaders_in config.now) name.now loader)) }
{
    if walk.done[usize::from(loader.0)] {
        return Ok(());
    }
    let imports = config.imports(loader);
    if let Some(import) = decisive(imports, name) {
        visit(config, import.target(), name, walk)?;
        close(walk, loader);
        return Ok(());
    }
    let parents = config.parents(loader);
    let child_first = is_child_first(config, loader);
    ask(walk, loader, child_first)?;
    for parent in parents {
        visit(config, *parent, name, walk)?;
    }
    ask(walk, loader, !child_first)?;
    close(walk, loader);
    Ok(())
}

/// The first import whose prefix begins a name.
fn decisive<'a>(imports: &'a [Import], name: &Name) -> Option<&'a Import>
    ensures { option_map (λ m. m.now) result ≡ find (λ m. starts_with nat_eq name.now m.prefix)
        imports.now }
{
    imports
        .iter()
        .find(|import| name.starts_with(import.prefix()))
}
