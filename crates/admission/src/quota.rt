//! How many connections each host, or each user, has at once.

ghost use Rattle.std.specs.Prelude.{◌≡◌, ◌≢◌, ◌↔◌, ◌<◌, ◌≤◌, ℕ, List, Ok, true, IfOk, IsTrue};
ghost use Rattle.admission.specs.Quota.{connections, HasOneMore};

use indexmap::IndexMap;
use std::alloc::{AllocError, Global};
use std::marker::Model;
use wire_types::Text;

/// How many connections each holder has, none more than `most`. A holder is a host or a user, by its text; one that has none has no
/// entry.
pub struct Quota {
    most: u64,
    table: IndexMap<String, u64>,
}

impl Model for Quota {
    ghost use Rattle.admission.specs.Quota.{QuotaValue, counts_of};
    ghost use Rattle.admission.specs.Kept.{IsKept};

    ghost Value = { QuotaValue };

    ghost view = { λ h. record { most = h.most; counts = counts_of h.table.entries } };

    ghost invariant = { λ h. IsKept h.most h.table };
}

impl Drop for Quota {
    fn drop(self) {
        let Quota {
            most: _most,
            table: _table,
        } = self;
    }
}

impl Quota {
    /// No holder has a connection yet, and each may have `most` at once. Nothing is allocated.
    pub fn new(alloc: Global, most: u64) -> Quota
        ensures most { result.most ≡ most }
        ensures none { (holder : List ℕ) → connections result holder ≡ 0 }
    {
        Quota {
            most,
            table: IndexMap::new(alloc),
        }
    }

    /// How many connections a holder has; 0 for a holder that isn't known.
    pub fn connections(&self, holder: &Text) -> u64
        ensures is { result ≡ connections self.now holder.now }
        ensures within { result ≤ self.now.most }
    {
        match self.table.get(holder.as_str()) {
            Some(count) => *count,
            None => 0,
        }
    }

    /// Counts one connection more of a holder, and gives true; false, without a change, where the holder has as many as it may. An
    /// allocation failure changes nothing.
    pub fn enter(&mut self, alloc: Global, holder: &Text) -> Result<bool, AllocError>
        ensures room { IfOk result
            (λ entered. IsTrue entered ↔ (connections self.old holder.now < self.old.most)) }
        ensures entered { result ≡ Ok true → HasOneMore self.old self.new holder.now }
        ensures full { result ≢ Ok true → self.new ≡ self.old }
        ensures within { (other : List ℕ) → connections self.new other ≤ self.new.most }
    {
        let count = self.connections(holder);
        if count == self.most {
            return Ok(false);
        }
        self.table.insert(holder.to_owned(alloc)?, count + 1)?;
        Ok(true)
    }

    /// Counts one connection less of a holder; without effect on a holder that has none.
    pub fn leave(&mut self, holder: &Text)
        ensures left { 0 < connections self.old holder.now → HasOneMore self.new self.old holder.now }
        ensures none { connections self.old holder.now ≡ 0 → self.new ≡ self.old }
    {
        let count = self.connections(holder);
        if count > 1 {
            if let Some(entry) = self.table.get_mut(holder.as_str()) {
                *entry = count - 1;
            }
        } else {
            self.table.swap_remove(holder.as_str());
        }
    }
}
