//! A value that has several owners, which contracts see as the value.

ghost use Rattle.std.specs.Prelude.{◌≡◌, IfOk, IfErr};

use crate::cursor::Cursor;
use crate::fault::{ReadFault, WriteFault};
use crate::wire::Wire;
use std::alloc::{AllocError, AllocFailed, Global};
use std::marker::Model;
use std::sync::Arc;

/// A value in an `Arc`, which contracts see as the value. Two are equal where their values are, whoever owns them.
#[derive(Debug)]
pub struct Shared<T> {
    arc: Arc<T>,
}

impl<T> Model for Shared<T> {
    ghost Value = { T };

    ghost view = { λ s. s.arc.value };
}

impl<T: Drop> Drop for Shared<T> {
    fn drop(self) {
        let Shared { arc: _arc } = self;
    }
}

impl<T> Shared<T> {
    /// The first owner of a value. An error is an allocation failure, and hands the value back.
    pub fn new(alloc: Global, value: T) -> Result<Shared<T>, AllocFailed<T>>
        ensures ok { IfOk result (λ s. s ≡ value) }
        ensures err { IfErr result (λ e. e.value ≡ value) }
    {
        Ok(Shared {
            arc: Arc::new(alloc, value)?,
        })
    }

    /// One more owner of the same value. An error comes only where the count of owners is full.
    pub fn share(&self) -> Result<Shared<T>, AllocError>
        ensures { IfOk result (λ s. s ≡ self.now) }
    {
        Ok(Shared {
            arc: Arc::try_clone(&self.arc)?,
        })
    }

    /// Borrows the value that all its owners share.
    pub fn value(&self) -> &T
        ensures { result.now ≡ self.now }
    {
        &*self.arc
    }
}

impl<T: PartialEq> PartialEq for Shared<T> {
    ghost eq = { T.eq };

    ghost laws = { T.laws };

    fn eq(&self, other: &Shared<T>) -> bool {
        self.value() == other.value()
    }
}

impl<T: Eq> Eq for Shared<T> {
    ghost laws = { T.Eq.laws };
}

impl<T: Wire> Wire for Shared<T> {
    ghost grammar = { T.grammar };

    fn read(alloc: Global, cursor: &mut Cursor<'_>) -> Result<Shared<T>, ReadFault> {
        let value: T = Wire::read(alloc, cursor)?;
        match Shared::new(alloc, value) {
            Ok(shared) => Ok(shared),
            Err(_) => Err(ReadFault::NoMemory),
        }
    }

    fn put(&self, out: &mut Vec<u8>) -> Result<(), WriteFault> {
        self.value().put(out)
    }

    fn deduct_from(&self, budget: usize) -> Option<usize> {
        self.value().deduct_from(budget)
    }
}
