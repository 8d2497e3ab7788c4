// Values in boxes.
ghost use Rattle.std.specs.Prelude.{◌≡◌, IfOk};

use crate::bytes::Memory;
use std::alloc::Global;
use std::boxed::Box;
use std::marker::Model;

/// A value in a box, so that only a pointer is moved with it. Contracts see the value.
#[derive(Drop)]
pub struct Boxed<T> {
    /// The value.
    pub inner: Box<T>,
}

impl<T> Model for Boxed<T> {
    ghost Value = { T };

    ghost view = { λ b. b.inner.value };
}

impl<T: Drop> Boxed<T> {
    /// The value in a box of its own.
    #[inline(always)]
    pub fn new(alloc: Global, value: T) -> Result<Boxed<T>, Memory>
        ensures { IfOk result (λ b. b ≡ value) }
    {
        match Box::new(alloc, value) {
            Ok(inner) => Ok(Boxed { inner }),
            Err(_) => Err(Memory),
        }
    }

    /// The value, out of its box.
    pub fn into_inner(self) -> T
        ensures { result ≡ self }
    {
        Box::into_inner(self.inner)
    }
}
