//! Objects and arrays of JSON that are built member by member.
ghost use Rattle.std.specs.Prelude.{◌≡◌, Some, IfOk, IfSome};
ghost use Rattle.serde_json.specs.Data.{no_members, number, object, string, unsigned};
ghost use Rattle.serde_json.specs.Data as json;
ghost use Rattle.serde_json.specs.View.{view};
ghost use Rattle.fx_json_answers.specs.Members.{IsAdded, IsView, built};

use serde_json::{Map, Value, push, put};
use std::alloc::{AllocError, Global};

/// The members of an object. After a failed allocation further members are ignored, and [`Members::into_value`] returns
/// the error.
#[derive(Drop)]
pub(crate) struct Members {
    alloc: Global,
    map: Map<String, Value>,
    is_short: bool,
}

impl Members {
    /// Returns an object without members.
    pub(crate) fn new(alloc: Global) -> Members
        ensures { built result ≡ Some no_members }
    {
        Members {
            alloc,
            map: Map::new(alloc),
            is_short: false,
        }
    }

    /// Adds a member, unless its value could not be made.
    pub(crate) fn add(&mut self, key: &str, made: Result<Value, AllocError>)
        ensures { IfSome (built self.new) (IsAdded key.now (IsView made) (built self.old)) }
    {
        match made {
            Ok(value) => {
                if !self.is_short && put(&mut self.map, self.alloc, key, value).is_err() {
                    self.is_short = true;
                }
            }
            Err(_) => self.is_short = true,
        }
    }

    /// Adds a member that is a text.
    pub(crate) fn text(&mut self, key: &str, text: &str)
        ensures { IfSome (built self.new) (IsAdded key.now (λ d. d ≡ string text.now)
            (built self.old)) }
    {
        self.add(key, Value::try_from_str(self.alloc, text));
    }

    /// Adds a member that is a number.
    pub(crate) fn number(&mut self, key: &str, count: u64)
        ensures { IfSome (built self.new) (IsAdded key.now (λ d. d ≡ number (unsigned count))
            (built self.old)) }
    {
        self.add(key, Ok(Value::from(count)));
    }

    /// Returns the object.
    ///
    /// Fails if an allocation failed while it was built.
    pub(crate) fn into_value(self) -> Result<Value, AllocError>
        ensures { IfOk result (λ v. (members : json.Members)
            × (built self ≡ Some members) × (view v ≡ object members)) }
    {
        if self.is_short {
            return Err(AllocError);
        }
        Ok(Value::Object(self.map))
    }
}

/// The items of an array. After a failed allocation further items are ignored, and [`Items::into_value`] returns the
/// error.
#[derive(Drop)]
pub(crate) struct Items {
    list: Vec<Value>,
    is_short: bool,
}

impl Items {
    /// Returns an array without items.
    pub(crate) fn new(alloc: Global) -> Items {
        Items {
            list: Vec::new(alloc),
            is_short: false,
        }
    }

    /// Adds an item, unless it could not be made.
    pub(crate) fn add(&mut self, made: Result<Value, AllocError>) {
        match made {
            Ok(value) => {
                if !self.is_short && push(&mut self.list, value).is_err() {
                    self.is_short = true;
                }
            }
            Err(_) => self.is_short = true,
        }
    }

    /// Returns the array.
    ///
    /// Fails if an allocation failed while it was built.
    pub(crate) fn into_value(self) -> Result<Value, AllocError> {
        if self.is_short {
            return Err(AllocError);
        }
        Ok(Value::Array(self.list))
    }
}
