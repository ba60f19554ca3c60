// A sequence, which contracts see as its list.
ghost use Rattle.std.specs.Prelude.{◌≡◌, [], ◌∷◌, ◌++◌, ◌↔◌, IsTrue, OnOk, OnErr, length};

use std::alloc::{AllocError, Global};
use std::marker::Model;

/// A sequence of values. Contracts see it as the list of its values, so that two trees that hold the same values are equal.
#[derive(Debug)]
pub struct Seq<T> {
    values: Vec<T>,
}

impl<T: Drop> Drop for Seq<T> {
    fn drop(self) {
        let Seq { values: _ } = self;
    }
}

impl<T> Model for Seq<T> {
    ghost use Rattle.std.specs.Prelude.{List};
    ghost use Rattle.std.specs.Coded.{coded_list};

    ghost Value = { List T };

    ghost coded = { coded_list T.code };

    ghost view = { λ seq. seq.values.items };
}

impl<T> Seq<T> {
    /// The empty sequence. It takes no memory until something is pushed.
    pub fn new(alloc: Global) -> Seq<T>
        ensures { result ≡ [] }
    {
        Seq {
            values: Vec::new(alloc),
        }
    }

    /// The values of a vector, in their order.
    pub fn from_vec(values: Vec<T>) -> Seq<T>
        ensures { result ≡ values.items }
    {
        Seq { values }
    }

    /// The values as a vector, in their order.
    pub fn into_vec(self) -> Vec<T>
        ensures { result.items ≡ self }
    {
        let Seq { values } = self;
        values
    }

    /// The values, in their order.
    pub fn as_slice(&self) -> &[T]
        ensures { result.now ≡ self.now }
    {
        self.values.as_slice()
    }

    /// How many values there are.
    pub fn len(&self) -> usize
        ensures { result ≡ length self.now }
    {
        self.values.len()
    }

    /// Whether there is no value.
    pub fn is_empty(&self) -> bool
        ensures { IsTrue result ↔ (self.now ≡ []) }
    {
        self.values.is_empty()
    }
}

impl<T: Drop> Seq<T> {
    /// Puts a value at the end. Where memory is refused, nothing changes.
    pub fn push(&mut self, value: T) -> Result<(), AllocError>
        ensures ok { OnOk result (self.new ≡ self.old ++ value ∷ []) }
        ensures err { OnErr result (self.new ≡ self.old) }
    {
        self.values.push(value)?;
        Ok(())
    }
}
