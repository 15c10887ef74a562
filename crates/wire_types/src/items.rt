//! A list of values, which contracts see as the list.

ghost use Rattle.std.specs.Prelude.{◌≡◌, ◌↔◌, [], ◌∷◌, ◌++◌, length, IfOk, IsTrue, OnOk, OnErr, slice_get};
ghost use Rattle.std.specs.Option.{option_copied, option_to_list};
ghost use Rattle.std.specs.Slice.Iter.{iter_rest};

use std::alloc::{AllocError, Global};
use std::marker::Model;
use std::{fmt, mem, slice};

/// For how many values a list takes memory when the second one comes.
pub(crate) const FIRST_MEMORY: usize = 4;

/// Values in order, which contracts see as their list: the array of a message. Most such arrays hold one value: one that is
/// pushed stands in the list itself and takes no memory elsewhere. A list that is made of a vector keeps the vector.
#[derive(Drop)]
pub struct Items<T> {
    alloc: Global,
    held: Held<T>,
}

/// One value, or a vector of any number.
#[derive(Drop)]
enum Held<T> {
    One([T; 1]),
    Many(Vec<T>),
}

/// The value of an array of one.
pub(crate) fn only<T>(one: [T; 1]) -> T
    ensures { one ≡ result ∷ [] }
{
    let [item] = one;
    item
}

impl<T> Model for Items<T> {
    ghost use Rattle.std.specs.Prelude.{List};
    ghost use Rattle.wire_types.specs.Items.{items_held};

    ghost Value = { List T };

    ghost view = { λ a. items_held a.held };
}

impl<T> Items<T> {
    /// An empty list, which takes no memory.
    pub fn new(alloc: Global) -> Items<T>
        ensures { result ≡ [] }
    {
        Items {
            alloc,
            held: Held::Many(Vec::new(alloc)),
        }
    }

    /// An empty list with memory for `count` values. An error is an allocation failure.
    pub fn with_capacity(alloc: Global, count: usize) -> Result<Items<T>, AllocError>
        ensures { IfOk result (λ items. items ≡ []) }
    {
        if count <= 1 {
            return Ok(Items::new(alloc));
        }
        Ok(Items::from(Vec::with_capacity(alloc, count)?))
    }

    pub fn len(&self) -> usize
        ensures { result ≡ length self.now }
    {
        self.as_slice().len()
    }

    pub fn is_empty(&self) -> bool
        ensures { IsTrue result ↔ (self.now ≡ []) }
    {
        self.as_slice().is_empty()
    }

    /// The value at this index, counted from 0, or None past the end.
    pub fn get(&self, index: usize) -> Option<&T>
        ensures { option_copied result ≡ slice_get self.now index }
    {
        self.as_slice().get(index)
    }

    pub fn iter(&self) -> slice::Iter<'_, T>
        ensures { iter_rest result ≡ self.now }
    {
        self.as_slice().iter()
    }

    /// The values, in order.
    pub fn as_slice(&self) -> &[T]
        ensures { result.now ≡ self.now }
    {
        match &self.held {
            Held::One(one) => one,
            Held::Many(items) => items.as_slice(),
        }
    }

    /// Appends a value. An error is an allocation failure, leaves the list as it was, and drops the value. A list without
    /// memory takes none for its first value, and then memory for four.
    pub fn push(&mut self, item: T) -> Result<(), AllocError>
    where
        T: Drop,
        ensures ok { OnOk result (self.new ≡ self.old ++ item ∷ []) }
        ensures err { OnErr result (self.new ≡ self.old) }
    {
        match &mut self.held {
            Held::One(_) => {}
            Held::Many(items) => {
                if !items.is_empty() || items.capacity() > 0 {
                    items.push(item)?;
                    return Ok(());
                }
                self.held = Held::One([item]);
                return Ok(());
            }
        }
        let alloc = self.alloc;
        let mut both = Vec::with_capacity(alloc, FIRST_MEMORY)?;
        if let Held::One(one) = mem::replace(&mut self.held, Held::Many(Vec::new(alloc))) {
            both.push_reserved(only(one));
        }
        both.push_reserved(item);
        self.held = Held::Many(both);
        Ok(())
    }

    /// The values as a vector. An error is an allocation failure, which comes only where one value stands in the list itself, and
    /// drops it.
    pub fn into_vec(self) -> Result<Vec<T>, AllocError>
    where
        T: Drop,
        ensures ok { IfOk result (λ vec. vec.items ≡ self) }
        ensures err { OnErr result (length self ≡ 1) }
    {
        let Items { alloc, held } = self;
        match held {
            Held::One(one) => {
                let item = only(one);
                let mut vec = Vec::with_capacity(alloc, 1)?;
                vec.push_reserved(item);
                Ok(vec)
            }
            Held::Many(items) => Ok(items),
        }
    }

    /// As `push` for a value that is there; None changes nothing.
    pub fn push_some(&mut self, item: Option<T>) -> Result<(), AllocError>
    where
        T: Drop,
        ensures ok { OnOk result (self.new ≡ self.old ++ option_to_list item) }
        ensures err { OnErr result (self.new ≡ self.old) }
    {
        match item {
            Some(item) => self.push(item),
            None => Ok(()),
        }
    }
}

impl<T> From<Vec<T>> for Items<T> {
    ghost from_gives = { λ vec items. items ≡ vec.items };

    fn from(vec: Vec<T>) -> Items<T> {
        Items {
            alloc: *vec.allocator(),
            held: Held::Many(vec),
        }
    }
}

impl<T: PartialEq> PartialEq for Items<T> {
    ghost use Rattle.std.specs.Cmp.Lexicographic.{pointwise, lists_per};

    ghost eq = { pointwise T.eq };

    ghost laws = { lists_per T.laws };

    fn eq(&self, other: &Items<T>) -> bool {
        self.as_slice() == other.as_slice()
    }
}

impl<T: Eq> Eq for Items<T> {
    ghost use Rattle.std.specs.Cmp.Lexicographic.{lists_equiv};

    ghost laws = { lists_equiv T.Eq.laws };
}

impl<T: Clone> Clone for Items<T> {
    ghost use Rattle.std.specs.List.{AllZip};

    ghost is_clone = { λ items copy. AllZip T.is_clone items copy };

    fn clone(&self) -> Result<Items<T>, AllocError> {
        let held = match &self.held {
            Held::One([item]) => Held::One([item.clone()?]),
            Held::Many(items) => Held::Many(items.clone()?),
        };
        Ok(Items {
            alloc: self.alloc,
            held,
        })
    }
}

impl<T: fmt::Debug> fmt::Debug for Items<T> {
    ghost use Rattle.std.specs.Fmt.{debug_list};

    ghost debug_output = { λ items. debug_list T.debug_output items };

    fn fmt<W: fmt::Write>(&self, f: &mut fmt::Formatter<W>) -> fmt::Result {
        fmt::Debug::fmt(&self.as_slice(), f)
    }
}
