//! Laws over rules: the broker's own has each, and the wrong ones that are named beside it have it not.

ghost use Rattle.std.specs.Prelude.{ℕ};
ghost use Rattle.acl_binding.specs.Binding.{allows, applies, covers, denies};
ghost use Rattle.acl_binding.specs.Filter.{matches};
ghost use Rattle.acl_binding.specs.Verdict.{verdict_of};
ghost use Rattle.api_dispatch.specs.Step.{outcome};
ghost use Rattle.audit_trail.specs.Line.{line_of};
ghost use Rattle.authorizer.specs.AnyTopic.{any_topic};
ghost use Rattle.authorizer.specs.Policy.{is_super};
ghost use Rattle.partition_log.specs.Filter.{filtered_records};
ghost use Rattle.record_batch.specs.Fault.{code_of};
ghost use Rattle.settings.specs.Fault.{first_fault};
ghost use Rattle.txn_coordinator.specs.InitProducerId.{init};
ghost use Rattle.wrong_rules.specs.Aborted.{DropsFromTheFirstOffset, TellsTheFirstOffset, dropping_one_later, step_telling_one_later};
ghost use Rattle.wrong_rules.specs.AclEdits.{CreationsAreTold, DeletionsAreTold, step_creating_backwards, step_creating_in_vain, step_deleting_backwards, step_deleting_silently};
ghost use Rattle.wrong_rules.specs.Bounds.{SettingsAreBounded, settings_with_any_port, settings_with_any_super};
ghost use Rattle.wrong_rules.specs.Faults.{FaultsAreTold, OnlyRuleOfFaults, endless_large, fatal_checksum};
ghost use Rattle.wrong_rules.specs.Filters.{OnlyRuleOfFilters, TakesWhatIsWanted, taking_any_host, taking_any_permission, taking_by_prefix};
ghost use Rattle.wrong_rules.specs.Lines.{LinesNameTheBinding, line_by_the_first, line_unmatched};
ghost use Rattle.wrong_rules.specs.Markers.{TellsWhatIsPending, step_marking_the_last, step_ticking_without_markers};
ghost use Rattle.wrong_rules.specs.Pairs.{EndTellsTheNextEpoch, InitTellsThePair, step_keeping_no_init, step_telling_epoch_0, step_telling_old_epoch};
ghost use Rattle.wrong_rules.specs.Permissions.{AllowsWhatIsImplied, AppliesToItsOwn, AsksForSomeTopic, CoversByPattern, DeniesBeforeItAllows, DeniesItsOwn, OnlyRuleOfAllowing, OnlyRuleOfApplying, OnlyRuleOfCovering, OnlyRuleOfDenying, OnlyRuleOfSomeTopic, OnlyRuleOfVerdicts, allowing_by_default, allowing_by_denials, allowing_first, allowing_nothing_implied, applying_at_each_host, applying_to_one_user, covering_by_beginning, covering_itself, denying_one_operation, denying_what_is_implied, naming_the_last, some_resource, some_topic_undenied};
ghost use Rattle.wrong_rules.specs.Retries.{RetriesAreAnswered, step_keeping_no_pair, step_keeping_over_add, step_keeping_over_init};
ghost use Rattle.wrong_rules.specs.Supers.{LongerNameIsRefused, OnlyRuleOfSupers, SupersAreListed, step_super_by_prefix, super_by_prefix, super_once_one_is};
ghost use Rattle.wrong_rules.specs.Timeouts.{LaterTimeoutCounts, TakesTheTimeout, init_keeping_first, init_with, step_keeping_timeouts};
ghost use Rattle.wrong_rules.specs.Topics.{TellsTheTopic, step_telling_no_error, step_telling_unknown, step_without_last_partition};

/// Super users are those whose names are listed, and nobody else.
pub fn super_users_are_listed()
    ensures listed { SupersAreListed is_super }
    ensures not_by_prefix { ¬ SupersAreListed super_by_prefix }
    ensures not_all { ¬ SupersAreListed super_once_one_is }
    ensures only { OnlyRuleOfSupers is_super }
    ensures longer { LongerNameIsRefused outcome }
    ensures longer_not_by_prefix { ¬ LongerNameIsRefused step_super_by_prefix }
{}

/// A binding covers, applies, denies and allows what Kafka's documentation of authorization says, and bindings deny before they
/// allow. No other rule does so.
pub fn bindings_permit_what_they_say()
    ensures covers { CoversByPattern covers }
    ensures covers_literally { ¬ CoversByPattern covering_by_beginning }
    ensures covers_by_prefix { ¬ CoversByPattern covering_itself }
    ensures covers_only { OnlyRuleOfCovering covers }
    ensures applies { AppliesToItsOwn applies }
    ensures applies_at_a_host { ¬ AppliesToItsOwn applying_at_each_host }
    ensures applies_to_all { ¬ AppliesToItsOwn applying_to_one_user }
    ensures applies_only { OnlyRuleOfApplying applies }
    ensures denies { DeniesItsOwn denies }
    ensures denies_no_more { ¬ DeniesItsOwn denying_what_is_implied }
    ensures denies_all { ¬ DeniesItsOwn denying_one_operation }
    ensures denies_only { OnlyRuleOfDenying denies }
    ensures allows { AllowsWhatIsImplied allows }
    ensures allows_more { ¬ AllowsWhatIsImplied allowing_nothing_implied }
    ensures allows_by_allow { ¬ AllowsWhatIsImplied allowing_by_denials }
    ensures allows_only { OnlyRuleOfAllowing allows }
    ensures verdict { DeniesBeforeItAllows verdict_of }
    ensures verdict_denies { ¬ DeniesBeforeItAllows allowing_first }
    ensures verdict_of_the_first { ¬ DeniesBeforeItAllows naming_the_last }
    ensures verdict_of_nothing { ¬ DeniesBeforeItAllows allowing_by_default }
    ensures verdict_only { OnlyRuleOfVerdicts verdict_of }
{}

/// Whoever may write some topic may have a producer id without a transactional id (KIP-679), and nobody else.
pub fn some_topic_may_be_written()
    ensures exact { AsksForSomeTopic any_topic }
    ensures undenied { ¬ AsksForSomeTopic some_topic_undenied }
    ensures topics { ¬ AsksForSomeTopic some_resource }
    ensures only { OnlyRuleOfSomeTopic any_topic }
{}

/// An InitProducerId that is answered no error leaves its transactional id the timeout that it asked for, and that one counts.
pub fn timeouts_are_taken()
    ensures taken { TakesTheTimeout init }
    ensures not_the_first { ¬ TakesTheTimeout init_keeping_first }
    ensures not_one_for_all { (n : ℕ) → ¬ TakesTheTimeout (init_with n) }
    ensures later { LaterTimeoutCounts outcome }
    ensures later_not_the_first { ¬ LaterTimeoutCounts step_keeping_timeouts }
{}

/// An InitProducerId with a transactional id that is answered no error tells the producer id and the epoch that the id has then,
/// and EndTxn 5 the next epoch.
pub fn pairs_are_told()
    ensures init { InitTellsThePair outcome }
    ensures init_not_epoch_0 { ¬ InitTellsThePair step_telling_epoch_0 }
    ensures init_kept { ¬ InitTellsThePair step_keeping_no_init }
    ensures end { EndTellsTheNextEpoch outcome }
    ensures end_not_old { ¬ EndTellsTheNextEpoch step_telling_old_epoch }
{}

/// An EndTxn 5 that is sent once more, with the epoch that it ended, is answered as before; and its producer is told that it is
/// fenced, as soon as its transactional id has gone on.
#[tactic(auto, unfolding(wire_types::specs::ErrorCode::number_of))]
pub fn retries_are_answered()
    ensures answered { RetriesAreAnswered outcome }
    ensures not_over_init { ¬ RetriesAreAnswered step_keeping_over_init }
    ensures not_over_add { ¬ RetriesAreAnswered step_keeping_over_add }
    ensures kept { ¬ RetriesAreAnswered step_keeping_no_pair }
{}

/// Whoever may describe a topic, and asks for it, is told that it is there with all its partitions, or that it isn't.
pub fn topics_are_told()
    ensures told { TellsTheTopic outcome }
    ensures there { ¬ TellsTheTopic step_telling_unknown }
    ensures whole { ¬ TellsTheTopic step_without_last_partition }
    ensures unknown { ¬ TellsTheTopic step_telling_no_error }
{}

/// A filter of bindings takes a binding exactly where each of its fields is what the filter wants.
pub fn filters_take_what_is_wanted()
    ensures taken { TakesWhatIsWanted matches }
    ensures of_host { ¬ TakesWhatIsWanted taking_any_host }
    ensures of_permission { ¬ TakesWhatIsWanted taking_any_permission }
    ensures of_principal { ¬ TakesWhatIsWanted taking_by_prefix }
    ensures only { OnlyRuleOfFilters matches }
{}

/// CreateAcls and DeleteAcls answer each entry at its place: what was created, and which bindings each filter took.
#[tactic(auto, unfolding(acl_binding::specs::WireNumbers::kind_at, acl_binding::specs::WireNumbers::pattern_at, acl_binding::specs::WireNumbers::operation_at, acl_binding::specs::WireNumbers::permission_at, acl_binding::specs::WireNumbers::filter_pattern_at, acl_binding::specs::WireNumbers::kind_code, acl_binding::specs::WireNumbers::pattern_code, acl_binding::specs::WireNumbers::operation_code, acl_binding::specs::WireNumbers::permission_code, acl_binding::specs::WireNumbers::filter_pattern_code))]
pub fn acl_edits_are_told()
    ensures created { CreationsAreTold outcome }
    ensures created_in_order { ¬ CreationsAreTold step_creating_backwards }
    ensures created_at_all { ¬ CreationsAreTold step_creating_in_vain }
    ensures deleted { DeletionsAreTold outcome }
    ensures deleted_at_all { ¬ DeletionsAreTold step_deleting_silently }
    ensures deleted_in_order { ¬ DeletionsAreTold step_deleting_backwards }
{}

/// A marker step and a tick tell how many markers are pending after them.
pub fn pending_markers_are_told()
    ensures told { TellsWhatIsPending outcome }
    ensures after_marks { ¬ TellsWhatIsPending step_marking_the_last }
    ensures after_ticks { ¬ TellsWhatIsPending step_ticking_without_markers }
{}

/// A consumer with read_committed is told where each aborted transaction begins, and drops its producer's records from there on.
pub fn aborted_records_are_dropped()
    ensures told { TellsTheFirstOffset outcome }
    ensures told_not_later { ¬ TellsTheFirstOffset step_telling_one_later }
    ensures dropped { DropsFromTheFirstOffset filtered_records }
    ensures dropped_not_later { ¬ DropsFromTheFirstOffset dropping_one_later }
{}

/// Each fault of a batch is told by the protocol's number.
pub fn faults_have_codes()
    ensures told { FaultsAreTold code_of }
    ensures checksum { ¬ FaultsAreTold fatal_checksum }
    ensures large { ¬ FaultsAreTold endless_large }
    ensures only { OnlyRuleOfFaults code_of }
{}

/// An audit line names the binding that denied, or says that nothing allowed, and what was asked by whom.
pub fn audit_lines_name_bindings()
    ensures named { LinesNameTheBinding line_of }
    ensures by_its_own { ¬ LinesNameTheBinding line_by_the_first }
    ensures as_denied { ¬ LinesNameTheBinding line_unmatched }
{}

/// Settings are taken with each number from its least to its greatest, with names that Kafka takes, and with no topic twice; else
/// their first fault is told.
pub fn settings_are_bounded()
    ensures bounded { SettingsAreBounded first_fault }
    ensures ports { ¬ SettingsAreBounded settings_with_any_port }
    ensures supers { ¬ SettingsAreBounded settings_with_any_super }
{}
