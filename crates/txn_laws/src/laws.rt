//! The laws of transactions, each the contract of a function with nothing to do.

ghost use Rattle.txn_coordinator.specs.Adding.{add_group, add_partitions};
ghost use Rattle.txn_coordinator.specs.EndTxn.{end};
ghost use Rattle.txn_coordinator.specs.InitProducerId.{init};
ghost use Rattle.txn_laws.specs.Small.{World};
ghost use Rattle.txn_laws.specs.Wrong.{add_beginning_again, add_by_any_producer, add_dropping_earlier, add_to_prepared, end_in_5_as_in_4, end_keeping_the_epoch, end_never_fencing, end_without_groups, group_beginning_again, group_dropping_earlier, init_beside_open, init_cutting_timeouts, init_used_up_from_100};
ghost use Rattle.txn_laws.specs.Sound.{HaveOwnIds};
ghost use Rattle.txn_laws.specs.Laws.{InSound, InReached, SoundLaw};
ghost use Rattle.txn_laws.specs.Laws.{CompletionLaw, WaitingLaw, PreparingLaw, PreparedLaw, CompletedLaw};
ghost use Rattle.txn_laws.specs.Laws.{FencingLaw, RefusalLaw, OrderLaw};
ghost use Rattle.txn_laws.specs.Laws.{IdsLaw, ExpiryLaw, TickLaw};
ghost use Rattle.txn_laws.specs.Kept.{KeptLaw, KeptEndLaw};
ghost use Rattle.txn_laws.specs.Tables.{AddTable, EndTable, GroupTable, InitTable};
ghost use Rattle.txn_laws.specs.TurnedAway.{TurnsAwayByTable};

/// Tables of the protocol's numbers say what an EndTxn with the right producer id and epoch is answered, how many markers it
/// leaves pending, and which producer id and epoch come next, by the transaction's state, the version, and commit or abort.
/// Such tables say it too of InitProducerId, AddPartitionsToTxn and AddOffsetsToTxn; the last two add what they name to the
/// transaction, and nothing else.
pub fn calls_by_table()
    ensures ends { EndTable end }
    ensures ends_groups { ¬ EndTable end_without_groups }
    ensures ends_raising { ¬ EndTable end_keeping_the_epoch }
    ensures ends_by_version { ¬ EndTable end_in_5_as_in_4 }
    ensures inits { InitTable init }
    ensures inits_until_used_up { ¬ InitTable init_used_up_from_100 }
    ensures inits_waiting { ¬ InitTable init_beside_open }
    ensures adds { AddTable add_partitions }
    ensures adds_to_open { ¬ AddTable add_to_prepared }
    ensures adds_in_time { ¬ AddTable add_beginning_again }
    ensures adds_keeping { ¬ AddTable add_dropping_earlier }
    ensures groups { GroupTable add_group }
    ensures groups_in_time { ¬ GroupTable group_beginning_again }
    ensures groups_keeping { ¬ GroupTable group_dropping_earlier }
{}

/// A table of the protocol's numbers says which error a call gets that comes with an empty or unknown transactional id, another
/// producer id or epoch, or a timeout out of range, or that is a retry; and that such a call changes nothing.
pub fn turns_away_by_table()
    ensures table { TurnsAwayByTable init add_partitions add_group end }
    ensures timeouts { ¬ TurnsAwayByTable init_cutting_timeouts add_partitions add_group end }
    ensures producers { ¬ TurnsAwayByTable init add_by_any_producer add_group end }
    ensures epochs { ¬ TurnsAwayByTable init add_partitions add_group end_never_fencing }
{}

/// The invariant of the coordinator, the logs and the groups holds at the beginning, and each call, write, marker and tick keeps
/// it: so it holds of every state that they reach.
pub fn soundness()
    ensures { SoundLaw }
{}

/// A pending marker with fewer than k before it is written by the next k marks, before anything else of its producer comes to
/// that partition or group. So each transaction that is prepared is completed at each partition and group that was added to it,
/// and one that waits for markers at each that is left.
pub fn completion()
    ensures owed { InSound CompletionLaw }
    ensures owed_reached { InReached CompletionLaw }
    ensures waiting { InSound WaitingLaw }
    ensures waiting_reached { InReached WaitingLaw }
    ensures preparing { InSound PreparingLaw }
    ensures preparing_reached { InReached PreparingLaw }
    ensures prepared { InSound PreparedLaw }
    ensures prepared_reached { InReached PreparedLaw }
    ensures completed { InSound CompletedLaw }
    ensures completed_reached { InReached CompletedLaw }
{}

/// A producer id and epoch that a transactional id has left for others writes nothing more: each check refuses it, and no data of
/// a producer stands in a log after a marker of it with a greater epoch.
pub fn fencing()
    ensures left { InSound FencingLaw }
    ensures left_reached { InReached FencingLaw }
    ensures refused { InSound RefusalLaw }
    ensures refused_reached { InReached RefusalLaw }
    ensures order { InSound OrderLaw }
    ensures order_reached { InReached OrderLaw }
{}

/// A tick that aborts all transactions whose timeout is over does what aborting them one after the other does, since their
/// transactional ids differ.
pub fn expiry()
    ensures own_ids { (w : World) → HaveOwnIds w.coordinator.transactions → ExpiryLaw w }
    ensures reached { InReached ExpiryLaw }
    ensures sound { InSound ExpiryLaw }
    ensures ticks { InSound TickLaw }
    ensures ticks_reached { InReached TickLaw }
    ensures ids_reached { InReached IdsLaw }
{}

/// A broker whose groups keep of a producer its id, and no epoch, does the same as one whose groups keep both, and shows the
/// end of each transaction.
pub fn keeping()
    ensures moves { KeptLaw }
    ensures ends { KeptEndLaw }
{}
