//! The names of the classes of the whole. What is found here is only a guess: the join judges it.

use fx_traffic::Traffic;
use std::alloc::{AllocError, Global};
use std::collections::BTreeMap;

/// The classes of a traffic declaration by their names.
#[derive(Drop)]
pub(crate) struct ClassNames {
    indices: BTreeMap<String, usize>,
}

impl ClassNames {
    /// Returns the classes of a declaration by their names.
    ///
    /// Fails if out of memory.
    pub(crate) fn new(alloc: Global, traffic: &Traffic) -> Result<ClassNames, AllocError> {
        let mut indices = BTreeMap::new(alloc);
        let mut number = 0u64;
        for index in 0..traffic.classes().as_slice().len() {
            number = number.saturating_add(1);
            if let Some(name) = traffic.class_name(number) {
                indices.insert(String::from_str(alloc, name)?, index)?;
            }
        }
        Ok(ClassNames { indices })
    }

    /// Returns the 0-based index of the class with this name.
    pub(crate) fn index_of(&self, name: &str) -> Option<usize> {
        self.indices.get(name).copied()
    }
}
