//! How many requests, ticks and marks a broker has answered.

ghost use Rattle.std.specs.Prelude.{◌≡◌, ◌+◌, ◌<◌, ◌^◌, ◌∷◌, [], length};
ghost use Rattle.audit_trail.specs.Trail.{refusal_count};
ghost use Rattle.core_reports.specs.Counts.{entries_of, is_of};

use crate::unserved::api_name;
use audit_trail::{Entry, Event, Trail};
use msg_admin::versions_reply;
use std::alloc::{AllocError, Global};

/// A kind of event in a trail.
#[derive(Clone, Copy, Debug, PartialEq, Eq)]
pub(crate) enum EventKind {
    /// A request to the api of this key.
    Request(i16),
    /// A step that writes a marker, if one is pending.
    Mark,
    /// A moment of the clock.
    Tick,
}

impl EventKind {
    /// Whether an event is of this kind.
    fn has(self, event: &Event) -> bool
        ensures { result ≡ is_of self event.now }
    {
        match event {
            Event::Ask { request, .. } => match self {
                EventKind::Request(key) => request.api().key().number() == key,
                EventKind::Mark | EventKind::Tick => false,
            },
            Event::Mark => match self {
                EventKind::Mark => true,
                EventKind::Request(_) | EventKind::Tick => false,
            },
            Event::Tick(_) => match self {
                EventKind::Tick => true,
                EventKind::Request(_) | EventKind::Mark => false,
            },
        }
    }
}

/// How many events there are, and how many parts of them were refused.
#[derive(Clone, Copy, Debug, PartialEq, Eq)]
pub(crate) struct Counted {
    pub(crate) events: u64,
    pub(crate) refusals: u64,
}

impl Counted {
    /// What an entry of the trail adds to the counts of a kind: one event and its refusals, if it is of that kind, else nothing.
    #[tactic(auto, using(crate::proofs::Counting::one, crate::proofs::Counting::none, crate::proofs::Counting::its_refusals, crate::proofs::Counting::no_refusals))]
    fn of(kind: EventKind, entry: &Entry) -> Counted
        ensures events { result.events ≡ length (entries_of kind (entry.now ∷ [])) }
        ensures refusals { result.refusals ≡ refusal_count (entries_of kind (entry.now ∷ [])) }
    {
        if kind.has(entry.event.value()) {
            Counted {
                events: 1,
                refusals: entry.refusals.len() as u64,
            }
        } else {
            Counted {
                events: 0,
                refusals: 0,
            }
        }
    }

    /// The sums of both counts, which must fit in 64 bits.
    fn plus(self, more: Counted) -> Counted
        requires events { self.events + more.events < 2 ^ 64 }
        requires refusals { self.refusals + more.refusals < 2 ^ 64 }
        ensures events { result.events ≡ self.events + more.events }
        ensures refusals { result.refusals ≡ self.refusals + more.refusals }
    {
        Counted {
            events: self.events + more.events,
            refusals: self.refusals + more.refusals,
        }
    }
}

/// How many events of a kind a trail has, and how many parts of them were refused.
pub(crate) fn count_of(trail: &Trail, kind: EventKind) -> Counted
    ensures events { result.events ≡ length (entries_of kind trail.now) }
    ensures refusals { result.refusals ≡ refusal_count (entries_of kind trail.now) }
{
    // Those of a kind are no more than all, which 64 bits count.
    let _all = trail.refusals();
    let mut counted = Counted {
        events: 0,
        refusals: 0,
    };
    for place in 0..trail.len() {
        let Some(entry) = trail.entry(place) else {
            unreachable!()
        };
        counted = counted.plus(Counted::of(kind, entry));
    }
    counted
}

/// How many requests to an api there are, and how many of their parts were refused.
#[derive(Drop)]
struct ApiCount {
    name: String,
    counted: Counted,
}

/// How many events of each kind a broker has answered.
#[derive(Drop)]
pub struct Counts {
    ticks: u64,
    marks: u64,
    /// The apis that were asked, in the order in which ApiVersions lists them.
    apis: Vec<ApiCount>,
}

/// How many requests to each api, ticks and marks a trail has; `None` after an allocation failure.
pub fn counts_of(alloc: Global, trail: &Trail) -> Option<Counts> {
    let mut apis = Vec::new(alloc);
    let served = versions_reply(alloc).ok()?;
    for api in served.apis.iter() {
        let counted = count_of(trail, EventKind::Request(api.key));
        if counted.events > 0 {
            let name = api_name(alloc, api.key)?;
            apis.push(ApiCount { name, counted }).ok()?;
        }
    }
    Some(Counts {
        ticks: count_of(trail, EventKind::Tick).events,
        marks: count_of(trail, EventKind::Mark).events,
        apis,
    })
}

/// Appends, after the text `before`, an api's name, how many requests to it were answered, and how many of their parts were
/// refused, if some were.
fn push_api(
    alloc: Global,
    line: &mut String,
    before: &str,
    api: &ApiCount,
) -> Result<(), AllocError> {
    let ApiCount { name, counted } = api;
    let Counted { events, refusals } = *counted;
    let name = name.as_str();
    line.push_str(format!(in alloc; "{before}{name} {events}")?.as_str())?;
    match refusals {
        0 => Ok(()),
        1 => line.push_str(" (1 refusal)"),
        _ => line.push_str(format!(in alloc; " ({refusals} refusals)")?.as_str()),
    }
}

/// The line that says how many requests, ticks and marks were answered, and how many requests to each api that was asked.
pub fn counts_line(alloc: Global, counts: &Counts) -> Result<String, AllocError> {
    let Counts { ticks, marks, apis } = counts;
    let mut requests: u64 = 0;
    for api in apis.iter() {
        requests = requests.saturating_add(api.counted.events);
    }
    let mut line = format!(in alloc; "kbroker: requests {requests}, ticks {ticks}")?;
    line.push_str(format!(in alloc; ", marks {marks}")?.as_str())?;
    let mut before = "; ";
    for api in apis.iter() {
        push_api(alloc, &mut line, before, api)?;
        before = ", ";
    }
    line.push_str("\n")?;
    Ok(line)
}
