// The tables of a module.
ghost use Rattle.std.specs.Prelude.{◌≡◌, ◌↔◌, Some, IsTrue, IsSome, IsSomeAnd, IfOk, OnOk, OnErr, find, length, option_map, slice_get};
ghost use Rattle.std.specs.Option.{option_map_or, option_copied};
ghost use Rattle.package_attrs.specs.Kinds.{kinds_match};
ghost use Rattle.config_table.specs.Names.{is_same, is_at_least};
ghost use Rattle.package_attrs.specs.Description.{description};
ghost use Rattle.config_table.specs.State.{empty_state, placed, raised, raised_by, made_stale, greater, stale_of, offer_of, with_package};
ghost use Rattle.config_table.specs.Rules.{IsStale, is_installed, IsInstalled, is_met, IsMet, IsDistinctState};
ghost use Rattle.config_table.specs.Stored.{entry_of};

use crate::key::Key;
use crate::names::is_at_least;
use crate::{BlockNumbers, Installed, StaleEntry};
use indexmap::IndexMap;
use package_attrs::{Package, PackageName, Stale};
use std::alloc::{AllocError, Global};
use std::marker::Model;

/// What a module has installed, in order of first installation, and what it takes for stale, in
/// order of first mention. No identifier and no legacy name stands twice in either.
#[derive(Drop)]
pub struct State {
    packages: IndexMap<Key, Installed>,
    stale: IndexMap<Key, StaleEntry>,
}

impl Model for State {
    ghost use Rattle.std.specs.Prelude.{map};
    ghost use Rattle.indexmap.specs.IndexMap.{values};
    ghost use Rattle.config_table.specs.State.{State as Tables, last_stale};
    ghost use Rattle.config_table.specs.Stored.{Stored, entry_of, IsKeyed};

    ghost Value = { Tables Stored };

    ghost view = { λ s. record {
      packages = map entry_of (values s.packages);
      stale = values s.stale;
    } };

    ghost invariant = { λ s. IsKeyed (λ installed. installed.name) s.packages.entries
        × IsKeyed last_stale s.stale.entries };
}

impl State {
    /// Nothing is installed and nothing is stale. Takes no memory.
    pub fn new(alloc: Global) -> State
        ensures empty { result ≡ empty_state }
    {
        State {
            packages: IndexMap::new(alloc),
            stale: IndexMap::new(alloc),
        }
    }

    /// How many packages are installed.
    pub fn packages(&self) -> usize
        ensures count { result ≡ length self.now.packages }
        ensures distinct { IsDistinctState self.now }
    {
        self.packages.len()
    }

    /// The package at a place, counted from 0 in order of first installation.
    pub fn package(&self, place: usize) -> Option<&Installed>
        ensures entry { option_map (λ installed. entry_of installed.now) result
            ≡ slice_get self.now.packages place }
    {
        match self.packages.get_index(place) {
            Some((_, installed)) => Some(installed),
            None => None,
        }
    }

    /// The installed package of the name's identifier, in whatever version, or of its legacy name.
    pub fn find(&self, name: &PackageName) -> Option<&Installed>
        ensures entry { option_map (λ installed. entry_of installed.now) result
            ≡ find (λ entry. is_same name.now entry.name) self.now.packages }
        ensures found { IsSome result ↔ IsInstalled name.now self.now.packages }
        ensures met { IsMet name.now self.now.packages
            ↔ IsSomeAnd result (λ installed. IsTrue (is_at_least installed.now.name name.now)) }
    {
        self.packages.get(&Key { name: *name })
    }

    /// Whether a package of the name's identifier, in whatever version, or of its legacy name is
    /// installed.
    pub fn is_installed(&self, name: &PackageName) -> bool
        ensures installed { result ≡ is_installed name.now self.now.packages }
    {
        self.find(name).is_some()
    }

    /// Whether a package of the need's identifier and at least its version, or of that very legacy
    /// name, is installed.
    pub fn is_met(&self, need: &PackageName) -> bool
        ensures met { result ≡ is_met need.now self.now.packages }
    {
        match self.find(need) {
            Some(installed) => is_at_least(&installed.name, need),
            None => false,
        }
    }

    pub fn copy(&self) -> Result<State, AllocError>
        ensures same { IfOk result (λ copy. copy ≡ self.now) }
    {
        Ok(State {
            packages: self.packages.clone()?,
            stale: self.stale.clone()?,
        })
    }

    /// Puts a package into the place of the one with its identifier or its legacy name, or last.
    pub fn replace(&mut self, installed: Installed) -> Result<(), AllocError>
        ensures ok { OnOk result (self.new
            ≡ record self.old { packages = placed (entry_of installed) self.old.packages }) }
        ensures err { OnErr result (self.new ≡ self.old) }
    {
        let key = Key {
            name: installed.name,
        };
        self.packages.insert(key, installed)?;
        Ok(())
    }

    /// Takes an entry as it stands in a manifest: an identifier's number becomes the greater of its
    /// own and this one, and what isn't there yet goes last.
    pub fn take_stale(&mut self, new: StaleEntry) -> Result<(), AllocError>
        ensures ok { OnOk result
            (self.new ≡ record self.old { stale = raised new self.old.stale }) }
        ensures err { OnErr result (self.new ≡ self.old) }
    {
        let key = Key { name: new.last() };
        let entry = raised_entry(self.stale.get(&key), new);
        self.stale.insert(key, entry)?;
        Ok(())
    }

    /// Makes stale what the stale value says beside the name.
    pub fn raise_stale(&mut self, name: &PackageName, stale: &Stale) -> Result<(), AllocError>
        requires alike { IsTrue (kinds_match name.now (Some stale.now)) }
        ensures ok { OnOk result (self.new ≡ record self.old {
          stale = raised_by (made_stale name.now stale.now) self.old.stale;
        }) }
        ensures err { OnErr result (self.new ≡ self.old) }
    {
        match StaleEntry::made(name, stale) {
            Some(made) => self.take_stale(made),
            None => Ok(()),
        }
    }

    /// The state with an offered package that is accepted: it goes into the place of the one with
    /// its identifier or its legacy name, or last, with its type and its dependencies, and its
    /// stale value is raised. Its image has this SHA-256 digest, this length in octets and these
    /// blocks. On want of memory the state is gone.
    pub fn with_package(
        self,
        offered: &Package<'_>,
        digest: [u8; 32],
        length: u32,
        blocks: BlockNumbers,
    ) -> Result<State, AllocError>
        ensures ok { IfOk result (λ state. state ≡ with_package (offer_of (description offered.now))
            digest (record { length = length; blocks = blocks }) self) }
    {
        let identifier = &offered.identifier;
        let needs = offered
            .info
            .dependencies
            .to_names(*self.packages.allocator())?;
        let mut state = self;
        state.replace(Installed {
            name: identifier.name,
            digest,
            length,
            blocks,
            kind: offered.info.kind,
            needs,
        })?;
        if let Some(stale) = &identifier.stale {
            state.raise_stale(&identifier.name, stale)?;
        }
        Ok(state)
    }

    /// The greatest version of the name's identifier that is stale, or 0 where the legacy name is.
    /// None where the list has no entry of that identifier or legacy name.
    pub fn stale_of(&self, name: &PackageName) -> Option<u128>
        ensures number { result ≡ stale_of name.now self.now }
    {
        match self.stale.get(&Key { name: *name }) {
            Some(entry) => Some(entry.number()),
            None => None,
        }
    }

    /// Whether the name is stale.
    pub fn stale_hit(&self, name: &PackageName) -> bool
        ensures stale { IsTrue result ↔ IsStale name.now self.now.stale }
    {
        match self.stale.get(&Key { name: *name }) {
            Some(entry) => is_at_least(&entry.last(), name),
            None => false,
        }
    }

    /// How many stale entries there are.
    pub fn stale_entries(&self) -> usize
        ensures count { result ≡ length self.now.stale }
        ensures distinct { IsDistinctState self.now }
    {
        self.stale.len()
    }

    /// The stale entry at a place, counted from 0 in order of first mention.
    pub fn stale_entry(&self, place: usize) -> Option<StaleEntry>
        ensures entry { result ≡ slice_get self.now.stale place }
    {
        match self.stale.get_index(place) {
            Some((_, entry)) => Some(*entry),
            None => None,
        }
    }
}

// The entry that stands for its identifier or legacy name once this one is raised.
fn raised_entry(old: Option<&StaleEntry>, made: StaleEntry) -> StaleEntry
    ensures raised { result
        ≡ option_map_or (λ old. greater old made) (option_copied old.entry) made }
{
    match old {
        Some(old) => old.greater(&made),
        None => made,
    }
}
