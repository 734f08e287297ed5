//! Names with fast look-up.
ghost use Rattle.std.specs.Prelude.{◌≡◌, ◌∷◌, ◌++◌, [], List, ℕ, not, false, if◌then◌else◌, OnOk, OnErr, IfOk, IfErr};
ghost use Rattle.fx_base.specs.Fault.{IsMemory};
ghost use Rattle.fx_walk.specs.Lists.{is_among, place_in};

use fx_base::{Fault, Name};
use std::alloc::{AllocError, Global};
use std::collections::BTreeMap;
use std::marker::Model;

/// Distinct names, in the order in which they were added. In contracts, they are a list.
pub struct Names {
    // The list that contracts see; look-ups use the map only.
    texts: Vec<String>,
    places: BTreeMap<String, usize>,
    alloc: Global,
}

impl Drop for Names {
    /// Drops its parts here, so that each drop elsewhere is one call.
    fn drop(self) {
        let Self {
            texts: _,
            places: _,
            alloc: _,
        } = self;
    }
}

impl Model for Names {
    ghost use Rattle.std.specs.Prelude.{List, ℕ, map, string_bytes};
    ghost use Rattle.fx_walk.specs.Lists.{ArePlacesOf};

    ghost Value = { List (List ℕ) };

    ghost view = { λ n. map string_bytes n.texts.items };

    ghost invariant = { λ n. ArePlacesOf n.places (map string_bytes n.texts.items) };
}

impl Names {
    /// Returns no names.
    pub fn new(alloc: Global) -> Names
        ensures { result ≡ [] }
    {
        Names {
            texts: Vec::new(alloc),
            places: BTreeMap::new(alloc),
            alloc,
        }
    }

    /// Returns whether the name is one of these.
    pub fn contains(&self, name: &Name) -> bool
        ensures { result ≡ is_among self.now name.now }
    {
        self.places.contains_key(name.as_str())
    }

    /// Returns the 0-based index of the name among these.
    pub fn place_of(&self, name: &Name) -> Option<usize>
        ensures { result ≡ place_in self.now name.now }
    {
        self.places.get(name.as_str()).copied()
    }

    /// Appends the name and returns true, or returns false if it is one of these already.
    ///
    /// Fails with 900, at no place, if out of memory.
    pub fn add(&mut self, name: &Name) -> Result<bool, Fault>
        ensures answer { IfOk result (λ new. new ≡ not (is_among self.old name.now)) }
        ensures err { IfErr result IsMemory }
        ensures names { OnOk result (self.new
            ≡ (if is_among self.old name.now then self.old else self.old ++ name.now ∷ [])) }
        ensures same { OnErr result (self.new ≡ self.old) }
    {
        if self.contains(name) {
            return Ok(false);
        }
        self.push(name)?;
        Ok(true)
    }

    /// Appends the name, which is not yet one of these.
    fn push(&mut self, name: &Name) -> Result<(), AllocError>
        requires { is_among self.old name.now ≡ false }
        ensures names { OnOk result (self.new ≡ self.old ++ name.now ∷ []) }
        ensures same { OnErr result (self.new ≡ self.old) }
    {
        self.texts.reserve(1)?;
        let text = String::from_str(self.alloc, name.as_str())?;
        let key = String::from_str(self.alloc, name.as_str())?;
        self.places.insert(key, self.texts.len())?;
        self.texts.push(text)?;
        Ok(())
    }
}
