//! A core whose trail's length stands in a ledger's book, and the seats that have shares of it.
//!
//! A seat's share is what was booked by the calls made with it, so no seat's count is above the trail's length.

ghost use Rattle.std.specs.Prelude.{◌≡◌, ◌↔◌, ◌+◌, ◌<◌, ◌≤◌, [], true, length, Some, None, Err, IfOk, IfErr, IfSome, IfNone, OnOk, MatchOption};
ghost use Rattle.api_dispatch.specs.Bounds.{EventFits, most_events};
ghost use Rattle.request_handlers.specs.Core.{IsCore, IsFull, IsReady, StoppedBy, core_after, receipt_of};
ghost use Rattle.request_handlers.specs.Headline.{StepIsRight};
ghost use Rattle.request_handlers.specs.Seats.{SeatValue, BookedValue, most_seats, fresh_seat, seat_after, with_seat_given};

use crate::machine::Core;
use crate::receipt::Receipt;
use crate::stop::Stop;
use audit_trail::Event;
use std::marker::Model;
use std::sync::ledger::{Blank, Book, Ledger, Share};

/// How many seats a core gives.
pub const MOST_SEATS: u64 = 1_048_576;

/// A session's place at a core: how many events were answered with it, and the receipt of the latest. It fits the core that
/// gave it.
#[derive(Drop)]
pub struct Seat<L: Ledger> {
    count: u64,
    share: Share<L>,
    last: Option<Receipt>,
}

impl<L: Ledger> Model for Seat<L> {
    ghost Value = { SeatValue };

    ghost view = { λ s. record { count = s.count; last = s.last } };

    ghost invariant = { λ s. (s.share.parts ≡ 1) × (s.share.amount ≡ s.count) };
}

impl<L: Ledger> Seat<L> {
    /// How many events were answered with this seat.
    pub fn count(&self) -> u64
        ensures { result ≡ self.now.count }
    {
        self.count
    }

    /// The receipt of the latest event that was answered with this seat, `None` before the first.
    pub fn last(&self) -> Option<&Receipt>
        ensures { MatchOption result (self.now.last ≡ None) (λ r. self.now.last ≡ Some r.now) }
    {
        self.last.as_ref()
    }
}

/// A core, with a book of how many events were answered with each of its seats.
#[derive(Drop)]
pub struct Booked<L: Ledger> {
    core: Core,
    book: Book<L>,
    free: Share<L>,
    given: u64,
}

impl<L: Ledger> Model for Booked<L> {
    ghost Value = { BookedValue };

    ghost view = { λ b. record { core = b.core; given = b.given } };

    ghost invariant = { λ b. (b.book.total ≡ length b.core.trail) × (b.free.parts + b.given ≡ most_seats + 1) × (b.free.amount ≡ 0) × (b.given ≤ most_seats) };
}

impl<L: Ledger> Booked<L> {
    /// A core that has answered nothing, with a new ledger (`blank`) in which the counts of its seats will stand. No seat is
    /// given yet.
    pub fn new(core: Core, blank: Blank) -> Booked<L>
        requires empty { core.trail ≡ [] }
        requires ledger { (blank.name ≡ L.name) × (blank.parts ≡ L.parts)
            × (blank.parts ≡ most_seats + 1) }
        ensures { result ≡ record { core = core; given = 0 } }
    {
        let (book, free) = blank.open::<L>();
        Booked {
            core,
            book,
            free,
            given: 0,
        }
    }

    /// A new seat for a session, with which nothing was answered; `None` once all `MOST_SEATS` were given.
    pub fn seat(&mut self) -> Option<Seat<L>>
        ensures some { IfSome result
            (λ seat. (seat ≡ fresh_seat) × (self.old.given < most_seats)
            × (self.new ≡ with_seat_given self.old)) }
        ensures none { IfNone result ((self.old.given ≡ most_seats) × (self.new ≡ self.old)) }
    {
        if self.given == MOST_SEATS {
            return None;
        }
        self.given += 1;
        let share = self.free.split_off(1, 0);
        Some(Seat {
            count: 0,
            share,
            last: None,
        })
    }

    /// The core, to be read.
    pub fn core(&self) -> &Core
        ensures { result.now ≡ self.now.core }
    {
        &self.core
    }

    /// How many events the core has answered, with whatever seat.
    fn len(&self) -> u64
        ensures is { result ≡ length self.now.core.trail }
        ensures few { result ≤ most_events }
    {
        self.core.trail().len() as u64
    }

    /// Has the core answer one event for this seat, as `Core::step`. The seat comes back: after an answer it counts one more
    /// event and keeps the receipt, after a stop it is as it was.
    pub fn step(&mut self, seat: Seat<L>, event: Event) -> (Seat<L>, Result<Receipt, Stop>)
        requires { EventFits event }

        // The step is the core's.
        ensures headline { IfOk result.1
            (λ receipt. StepIsRight self.old.core event receipt self.new.core) }
        ensures ready { OnOk result.1 (IsReady self.old.core) }
        ensures receipt { IfOk result.1 (λ r. r ≡ receipt_of self.old.core event) }
        ensures ok { OnOk result.1 (self.new.core ≡ core_after self.old.core event) }
        ensures core { OnOk result.1 (IsCore (core_after self.old.core event)) }
        ensures stop { IfErr result.1 (λ stop. StoppedBy stop self.old.core event self.new.core) }
        ensures down { (result.1 ≡ Err Stop.Down) ↔ (self.old.core.down ≡ true) }
        ensures full { (result.1 ≡ Err Stop.TrailFull) ↔ IsFull self.old.core }

        ensures raised { IfOk result.1 (λ r. result.0 ≡ seat_after seat r) }
        ensures kept { IfErr result.1 (λ _. result.0 ≡ seat) }
        ensures place { IfOk result.1 (λ r. seat.count ≤ r.place) }
        ensures given { self.new.given ≡ self.old.given }
    {
        let Seat {
            count,
            mut share,
            last,
        } = seat;
        self.book.audit(&mut share);
        prove!(count <= self.len());
        match self.core.step_twice(last.as_ref(), event) {
            Ok((receipt, kept)) => {
                self.book.add(&mut share, 1);
                let seat = Seat {
                    count: count + 1,
                    share,
                    last: Some(kept),
                };
                (seat, Ok(receipt))
            }
            Err(stop) => (Seat { count, share, last }, Err(stop)),
        }
    }
}
