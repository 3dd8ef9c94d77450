//! A value in memory of its own.

ghost use Rattle.std.specs.Prelude.{◌≡◌, IfOk};

use std::alloc::{AllocError, Global};
use std::marker::Model;
use std::ops::Deref;

/// A value in memory of its own, so that what holds it stays small. Contracts see the value itself.
#[derive(Debug)]
pub struct Boxed<T> {
    place: Box<T>,
}

// Written out, so that what holds a value lets go of it by one call.
impl<T: Drop> Drop for Boxed<T> {
    fn drop(self) {
        let Boxed { place } = self;
        drop(place);
    }
}

impl<T> Model for Boxed<T> {
    ghost Value = { T };

    ghost coded = { T.code };

    ghost view = { λ b. b.place.value };
}

impl<T: Drop> Boxed<T> {
    /// The value, moved to memory of its own.
    pub fn new(alloc: Global, value: T) -> Result<Boxed<T>, AllocError>
        ensures { IfOk result (λ b. b ≡ value) }
    {
        Ok(Boxed {
            place: Box::new(alloc, value)?,
        })
    }
}

impl<T> Deref for Boxed<T> {
    type Target = T;

    ghost use Rattle.std.specs.Prelude.{◌≡◌};

    ghost deref_gives = { λ b value. value ≡ b };

    fn deref(&self) -> &T
        ensures { result.now ≡ self.now }
    {
        self.place.as_ref()
    }
}
