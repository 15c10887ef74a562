//! A value in a heap block of its own, which contracts see as the value.

ghost use Rattle.std.specs.Prelude.{◌≡◌, IfOk};

use crate::cursor::Cursor;
use crate::fault::{ReadFault, WriteFault};
use crate::wire::Wire;
use std::alloc::{AllocError, Global};
use std::marker::Model;

/// A value in a `Box`, which contracts see as the value. A struct or an enum that holds it takes a pointer's size alone for
/// it.
pub struct Boxed<T> {
    boxed: Box<T>,
}

impl<T> Model for Boxed<T> {
    ghost Value = { T };

    ghost view = { λ b. b.boxed.value };
}

impl<T: Drop> Drop for Boxed<T> {
    fn drop(self) {
        let Boxed { boxed: _boxed } = self;
    }
}

impl<T> Boxed<T> {
    /// Moves a value into a heap block of its own. An error is an allocation failure, and drops the value.
    pub fn new(alloc: Global, value: T) -> Result<Boxed<T>, AllocError>
    where
        T: Drop,
        ensures { IfOk result (λ b. b ≡ value) }
    {
        Ok(Boxed {
            boxed: Box::new(alloc, value)?,
        })
    }

    /// Borrows the value in the block.
    pub fn value(&self) -> &T
        ensures { result.now ≡ self.now }
    {
        &*self.boxed
    }
}

impl<T: PartialEq> PartialEq for Boxed<T> {
    ghost eq = { T.eq };

    ghost laws = { T.laws };

    fn eq(&self, other: &Boxed<T>) -> bool {
        self.value() == other.value()
    }
}

impl<T: Eq> Eq for Boxed<T> {
    ghost laws = { T.Eq.laws };
}

impl<T: Wire> Wire for Boxed<T> {
    ghost grammar = { T.grammar };

    fn read(alloc: Global, cursor: &mut Cursor<'_>) -> Result<Boxed<T>, ReadFault> {
        let value: T = Wire::read(alloc, cursor)?;
        Ok(Boxed::new(alloc, value)?)
    }

    fn put(&self, out: &mut Vec<u8>) -> Result<(), WriteFault> {
        self.value().put(out)
    }

    fn deduct_from(&self, budget: usize) -> Option<usize> {
        self.value().deduct_from(budget)
    }
}
