//! A value that proofs alone see, in a type that may cross threads whatever the value's type is.
#![tactic(auto)]

ghost use Rattle.std.specs.Prelude.{◌≡◌};
ghost use base.Fml.{ftrue};

use std::marker::{Model, PhantomData};

/// A value as it was when it was said. It has no bytes, and nothing can be read from it but in a clause.
pub struct Said<T> {
    marker: PhantomData<T>,
    pub ghost value: { T },
}

impl<T> Model for Said<T> {
    ghost also_owns = { λ _. ftrue };
}

impl<T> Said<T> {
    /// What `x` is now.
    pub fn of(x: &T) -> Said<T>
        ensures { result.value ≡ x.now }
    {
        let _ = x;
        Said {
            marker: PhantomData,
        }
    }
}

// It holds no `T`.
unsafe impl<T> Send for Said<T> {}

unsafe impl<T> Sync for Said<T> {}

impl<T> Drop for Said<T> {
    fn drop(self) {
        let Self { marker: _ } = self;
    }
}
