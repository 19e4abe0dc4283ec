//! The search for a name through the loaders.

ghost use Rattle.std.specs.Prelude.{◌≡◌, ◌<◌, ◌≤◌, ◌-◌, ◌++◌, [], ◌∷◌, IfOk, OnOk, IfErr, MatchResult, Option, Some, None, length, is_some, slice_get, vec_len, vec_capacity};
ghost use Rattle.cl_delegation.specs.Searches.{LeadsTo, FollowsRoute, begun_search, next_of, route_of, with_probe};
ghost use Rattle.cl_source.specs.Told.{IsTold};
ghost use Rattle.cl_source.specs.Views.{Found};

use crate::route::find_route;
use cl_config::Config;
use cl_model::{LoaderId, Told};
use cl_names::Name;
use cl_source::{Outcome, Probe};
use std::alloc::{AllocError, Global};
use std::marker::Model;
use std::sync::Arc;
use thiserror::Error;

/// The search for a name, begun at a loader (JVMS SE 8, 5.3.2): the own content of one loader after another is probed,
/// until one has the name or none is left.
pub struct Search<T: Told> {
    config: Arc<Config>,
    loader: LoaderId,
    name: Name,
    /// The loaders that are probed, in order, while each lacks the name.
    route: Vec<LoaderId>,
    /// The probes so far that found nothing, with room for one of each loader of the route.
    absent: Vec<Probe<T>>,
    found: Option<Probe<T>>,
}

impl<T: Told> Drop for Search<T> {
    fn drop(self) {
        let Search {
            config: _,
            loader: _,
            name: _,
            route: _,
            absent: _,
            found: _,
        } = self;
    }
}

impl<T: Told> Model for Search<T> {
    ghost use Rattle.std.specs.Prelude.{length, vec_len, vec_capacity};
    ghost use Rattle.cl_delegation.specs.Searches.{Searched};
    ghost use Rattle.cl_delegation.specs.Kept.{HasRouteAtHand};

    ghost Value = { Searched };

    ghost view = { λ s. record {
      config = s.config.value;
      loader = s.loader;
      name = s.name;
      absent = s.absent.items;
      found = s.found;
    } };

    ghost invariant = { λ s. HasRouteAtHand T.told (record {
      config = s.config.value;
      loader = s.loader;
      name = s.name;
      absent = s.absent.items;
      found = s.found;
    }) s.route.items (vec_len s.absent) (vec_capacity s.absent) };
}

/// A search could not begin.
#[derive(Debug, Error)]
#[error("G0 Memory")]
#[derive(Drop)]
pub struct SearchRefused {
    pub config: Arc<Config>,
    pub name: Name,
}

/// A probe of another loader or name than the next, or after the last.
#[derive(Drop)]
pub struct WrongProbe<T: Told> {
    pub probe: Probe<T>,
}

impl<T: Told> Search<T> {
    /// A search that has probed nothing yet. Only memory refuses it, and nothing takes memory after it.
    pub fn new(
        alloc: Global,
        config: Arc<Config>,
        loader: LoaderId,
        name: Name,
    ) -> Result<Search<T>, SearchRefused>
        requires { loader < length config.value.loaders }
        ensures begun { IfOk result (λ s. s ≡ begun_search config.value loader name) }
        ensures back { IfErr result (λ e. (e.config.value ≡ config.value) × (e.name ≡ name)) }
    {
        let Ok(route) = find_route(alloc, &config, loader, &name) else {
            return Err(SearchRefused { config, name });
        };
        match Vec::with_capacity(alloc, route.len()) {
            Ok(absent) => Ok(Search {
                config,
                loader,
                name,
                route,
                absent,
                found: None,
            }),
            Err(_) => Err(SearchRefused { config, name }),
        }
    }

    /// The loader to be probed next, if any is.
    pub fn next_probe(&self) -> Option<LoaderId>
        ensures next { result ≡ next_of self.now }
        ensures follows { FollowsRoute T.told self.now }
    {
        if self.found.is_some() {
            return None;
        }
        self.route.get(self.absent.len()).copied()
    }

    /// How many loaders of the route have not been found to lack the name. While no bytes were found these are still to be
    /// probed, if each of them lacks it.
    pub fn probes_left(&self) -> usize
        ensures { result ≡ length (route_of self.now) - length self.now.absent }
    {
        self.route.len().saturating_sub(self.absent.len())
    }

    /// Takes the next probe; another is handed back.
    pub fn take(&mut self, probe: Probe<T>) -> Result<(), WrongProbe<T>>
        ensures next { OnOk result ((next_of self.old ≡ Some probe.loader)
            × (probe.name ≡ self.old.name)) }
        ensures taken { OnOk result (self.new ≡ with_probe self.old probe) }
        ensures wrong { IfErr result (λ w. next_of self.old ≡ Some probe.loader
            → probe.name ≡ self.old.name → ⊥) }
        ensures unchanged { IfErr result (λ w. (self.new ≡ self.old) × (w.probe ≡ probe)) }
    {
        if self.next_probe() != Some(probe.loader()) || *probe.name() != self.name {
            return Err(WrongProbe { probe });
        }
        match probe.outcome() {
            Outcome::Found(_) => self.found = Some(probe),
            Outcome::Absent => self.absent.push_reserved(probe),
        }
        Ok(())
    }

    /// The home that the probes tell of, or that there is none.
    pub fn home(self) -> Result<Home<T>, Unfound<T>>
        requires { next_of self ≡ None }
        ensures config { MatchResult result (λ h. h.config ≡ self.config) (λ u. u.config
            ≡ self.config) }
        ensures asked { MatchResult result (λ h. h.asked ≡ self.loader) (λ u. u.asked
            ≡ self.loader) }
        ensures name { MatchResult result (λ h. h.name ≡ self.name) (λ u. u.name ≡ self.name) }
        ensures probes { MatchResult result (λ h. h.absent ≡ self.absent) (λ u. u.absent
            ≡ self.absent) }
        ensures found { MatchResult result (λ h. self.found ≡ Some (record {
          loader = h.definer;
          name = h.name;
          bytes = Some h.bytes;
        })) (λ u. self.found ≡ None) }
    {
        let Search {
            config,
            loader,
            name,
            route: _,
            absent,
            found,
        } = self;
        match found {
            Some(probe) => Ok(Home {
                config,
                asked: loader,
                name,
                absent,
                probe,
            }),
            None => Err(Unfound {
                config,
                loader,
                name,
                absent,
            }),
        }
    }
}

/// Where a search found a name: the loader whose own content answered, with its bytes, and the probes before, as
/// `Search::home` gives them.
pub struct Home<T: Told> {
    config: Arc<Config>,
    asked: LoaderId,
    name: Name,
    absent: Vec<Probe<T>>,
    probe: Probe<T>,
}

impl<T: Told> Drop for Home<T> {
    fn drop(self) {
        let Home {
            config: _,
            asked: _,
            name: _,
            absent: _,
            probe: _,
        } = self;
    }
}

impl<T: Told> Model for Home<T> {
    ghost use Rattle.std.specs.Prelude.{◌≡◌, ◌<◌, [], Some, length, unwrap_or};
    ghost use Rattle.cl_delegation.specs.Searches.{Located, LeadsTo};

    ghost Value = { Located };

    ghost view = { λ h. record {
      config = h.config.value;
      asked = h.asked;
      definer = h.probe.loader;
      name = h.name;
      bytes = unwrap_or h.probe.bytes [];
      absent = h.absent.items;
    } };

    ghost invariant = { λ h. (h.probe.name ≡ h.name) × (h.probe.bytes ≡ Some (unwrap_or
        h.probe.bytes [])) × LeadsTo T.told h.config.value h.asked h.name (Some h.probe.loader) ×
        (h.probe.loader < length h.config.value.loaders) };
}

impl<T: Told> Home<T> {
    /// The configuration that the search went by.
    pub fn config(&self) -> &Config
        ensures config { result.now ≡ self.now.config }
        ensures leads { LeadsTo T.told self.now.config self.now.asked self.now.name
            (Some self.now.definer) }
        ensures within { self.now.definer < length self.now.config.loaders }
    {
        &self.config
    }

    /// The loader that was asked.
    pub fn asked_loader(&self) -> LoaderId
        ensures { result ≡ self.now.asked }
    {
        self.asked
    }

    /// The loader whose own content answered.
    pub fn definer(&self) -> LoaderId
        ensures { result ≡ self.now.definer }
    {
        self.probe.loader()
    }

    /// The name.
    pub fn name(&self) -> &Name
        ensures { result.now ≡ self.now.name }
    {
        &self.name
    }

    /// The bytes that the home has for the name.
    pub fn bytes(&self) -> &[u8]
        ensures bytes { result.now ≡ self.now.bytes }
        ensures told { IsTold T.told self.now.definer self.now.name (Some self.now.bytes) }
    {
        match self.probe.outcome() {
            Outcome::Found(bytes) => bytes.as_slice(),
            Outcome::Absent => unreachable!(),
        }
    }

    /// The probes of the search that it had taken before this one, as `Search::home` gives them. That they follow the route
    /// and found nothing is known of that search (`Search::next_probe`); a home keeps nothing of it.
    pub fn absent(&self) -> &[Probe<T>]
        ensures { result.now ≡ self.now.absent }
    {
        &self.absent
    }

    /// The name, given up by the home.
    pub fn into_name(self) -> Name
        ensures { result ≡ self.name }
    {
        let Home {
            config: _,
            asked: _,
            name,
            absent: _,
            probe: _,
        } = self;
        name
    }
}

/// A name that a search did not find, with its probes, as `Search::home` gives them. Where a content is told, the search
/// rule leads to no loader.
pub struct Unfound<T: Told> {
    config: Arc<Config>,
    loader: LoaderId,
    name: Name,
    absent: Vec<Probe<T>>,
}

impl<T: Told> Drop for Unfound<T> {
    fn drop(self) {
        let Unfound {
            config: _,
            loader: _,
            name: _,
            absent: _,
        } = self;
    }
}

impl<T: Told> Model for Unfound<T> {
    ghost use Rattle.std.specs.Prelude.{None};
    ghost use Rattle.cl_delegation.specs.Searches.{Sought, LeadsTo};

    ghost Value = { Sought };

    ghost view = { λ u. record {
      config = u.config.value;
      asked = u.loader;
      name = u.name;
      absent = u.absent.items;
    } };

    ghost invariant = { λ u. LeadsTo T.told u.config.value u.loader u.name None };
}

impl<T: Told> Unfound<T> {
    /// The configuration that the search went by.
    pub fn config(&self) -> &Config
        ensures config { result.now ≡ self.now.config }
        ensures leads { LeadsTo T.told self.now.config self.now.asked self.now.name None }
    {
        &self.config
    }

    /// The loader that was asked.
    pub fn asked_loader(&self) -> LoaderId
        ensures { result ≡ self.now.asked }
    {
        self.loader
    }

    /// The name that was asked for.
    pub fn name(&self) -> &Name
        ensures { result.now ≡ self.now.name }
    {
        &self.name
    }

    /// The probes that the search had taken, as `Search::home` gives them. That they follow the route and found nothing is
    /// known of that search (`Search::next_probe`); this type keeps nothing of it.
    pub fn absent(&self) -> &[Probe<T>]
        ensures { result.now ≡ self.now.absent }
    {
        self.absent.as_slice()
    }

    /// The name, given up.
    pub fn into_name(self) -> Name
        ensures { result ≡ self.name }
    {
        let Unfound {
            config: _,
            loader: _,
            name,
            absent: _,
        } = self;
        name
    }
}
