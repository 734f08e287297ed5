//! Values in document order.
ghost use Rattle.std.specs.Prelude.{◌≡◌, List, length};

use std::marker::Model;

/// The values of a list in document order. In contracts, it is the list of its values.
#[derive(Debug, Drop)]
pub struct Sequence<T> {
    values: Vec<T>,
}

impl<T> Model for Sequence<T> {
    ghost use Rattle.std.specs.Prelude.{List};

    ghost Value = { List T };

    ghost view = { λ s. s.values.items };
}

impl<T> Sequence<T> {
    /// Returns the values of a vector, without allocating.
    pub fn from_vec(values: Vec<T>) -> Sequence<T>
        ensures { result ≡ values.items }
    {
        Sequence { values }
    }

    /// Returns the vector of its values, without allocating.
    pub fn into_vec(self) -> Vec<T>
        ensures { result.items ≡ self }
    {
        let Sequence { values } = self;
        values
    }

    /// Returns its values.
    pub fn as_slice(&self) -> &[T]
        ensures { result.now ≡ self.now }
    {
        self.values.as_slice()
    }
}
