//! Laws about the tables of the protocol guide: which number or name each error code, level, api and word of a binding has.

ghost use Rattle.wire_laws.specs.Tables.{IsTheOnly};
ghost use Rattle.wire_laws.specs.Numbers.{NumbersErrors, ReadsErrors, NumbersLevels, ReadsLevels, WritesBooleans, ReadsBooleans, boolean_written, boolean_at, ServesApis, ReadsApis};
ghost use Rattle.wire_types.specs.ErrorCode.{number_of, code_of};
ghost use Rattle.msg_data.specs.Isolation.{level_of, isolation_of};
ghost use Rattle.msg_admin.specs.ApiKey.{served_api, key_at};
ghost use Rattle.wire_laws.specs.AclNumbers.{NumbersKinds, ReadsKinds, NamesKinds, ReadsNamesOfKinds, NumbersPatterns, ReadsPatterns, NamesPatterns, ReadsNamesOfPatterns, NumbersFilterPatterns, ReadsFilterPatterns, NumbersOperations, ReadsOperations, NamesOperations, ReadsNamesOfOperations, NumbersPermissions, ReadsPermissions, NamesPermissions, ReadsNamesOfPermissions};
ghost use Rattle.acl_binding.specs.WireNumbers.{kind_code, kind_at, pattern_code, pattern_at, filter_pattern_code, filter_pattern_at, operation_code, operation_at, permission_code, permission_at};
ghost use Rattle.wire_laws.specs.WrongAclNumbers.{group_and_transactional_numbers_swapped, group_and_transactional_read_swapped, group_and_transactional_names_swapped, group_and_transactional_names_read_swapped, literal_and_prefixed_numbers_swapped, literal_and_prefixed_read_swapped, literal_and_prefixed_names_swapped, literal_and_prefixed_names_read_swapped, any_and_match_numbers_swapped, any_and_match_read_swapped, read_and_write_numbers_swapped, read_and_write_read_swapped, read_and_write_names_swapped, read_and_write_names_read_swapped, deny_and_allow_numbers_swapped, deny_and_allow_read_swapped, deny_and_allow_names_swapped, deny_and_allow_names_read_swapped};
ghost use Rattle.acl_binding.specs.Names.{kind_name, kind_named, pattern_name, pattern_named, operation_name, operation_named, permission_name, permission_named};
ghost use Rattle.wire_laws.specs.WrongNumbers.{corrupt_and_invalid_numbers_swapped, version_and_mechanism_numbers_swapped, fenced_and_epoch_numbers_swapped, corrupt_and_invalid_read_swapped, version_and_mechanism_read_swapped, fenced_and_epoch_read_swapped, level_numbers_swapped, level_read_swapped, booleans_inverted, booleans_read_inverted, booleans_above_1_refused, heartbeat_and_leave_numbers_swapped, end_txn_flexible_from_4, heartbeat_and_leave_read_swapped};

/// Each error code that a client is told has the number that the protocol guide gives it, and each number is read as that code.
/// No other table has these rows.
pub fn error_codes_have_numbers()
    ensures told { NumbersErrors number_of }
    ensures told_only { IsTheOnly NumbersErrors number_of }
    ensures not_corrupt_and_invalid_numbers_swapped { ¬ NumbersErrors corrupt_and_invalid_numbers_swapped }
    ensures not_version_and_mechanism_numbers_swapped { ¬ NumbersErrors version_and_mechanism_numbers_swapped }
    ensures not_fenced_and_epoch_numbers_swapped { ¬ NumbersErrors fenced_and_epoch_numbers_swapped }
    ensures read { ReadsErrors code_of }
    ensures read_only { IsTheOnly ReadsErrors code_of }
    ensures not_corrupt_and_invalid_read_swapped { ¬ ReadsErrors corrupt_and_invalid_read_swapped }
    ensures not_version_and_mechanism_read_swapped { ¬ ReadsErrors version_and_mechanism_read_swapped }
    ensures not_fenced_and_epoch_read_swapped { ¬ ReadsErrors fenced_and_epoch_read_swapped }
{}

/// READ_UNCOMMITTED is 0 and READ_COMMITTED is 1, and no other number is a level.
pub fn isolation_levels_have_numbers()
    ensures told { NumbersLevels level_of }
    ensures told_only { IsTheOnly NumbersLevels level_of }
    ensures not_level_numbers_swapped { ¬ NumbersLevels level_numbers_swapped }
    ensures read { ReadsLevels isolation_of }
    ensures read_only { IsTheOnly ReadsLevels isolation_of }
    ensures not_level_read_swapped { ¬ ReadsLevels level_read_swapped }
{}

/// A BOOLEAN is sent as 0 where it is false and as 1 where it is true; a client's 0 is read as false, and any other byte as
/// true.
pub fn booleans_are_bytes()
    ensures written { WritesBooleans boolean_written }
    ensures written_only { IsTheOnly WritesBooleans boolean_written }
    ensures not_booleans_inverted { ¬ WritesBooleans booleans_inverted }
    ensures read { ReadsBooleans boolean_at }
    ensures read_only { IsTheOnly ReadsBooleans boolean_at }
    ensures not_booleans_read_inverted { ¬ ReadsBooleans booleans_read_inverted }
    ensures not_booleans_above_1_refused { ¬ ReadsBooleans booleans_above_1_refused }
{}

/// Each api that is served has the protocol's number, with its first and its last version, and its first flexible one. No other
/// number is an api.
pub fn apis_have_numbers()
    ensures served { ServesApis served_api }
    ensures served_only { IsTheOnly ServesApis served_api }
    ensures not_heartbeat_and_leave_numbers_swapped { ¬ ServesApis heartbeat_and_leave_numbers_swapped }
    ensures not_end_txn_flexible_from_4 { ¬ ServesApis end_txn_flexible_from_4 }
    ensures read { ReadsApis key_at }
    ensures read_only { IsTheOnly ReadsApis key_at }
    ensures not_heartbeat_and_leave_read_swapped { ¬ ReadsApis heartbeat_and_leave_read_swapped }
{}

/// A resource type is 2 for TOPIC, 3 for GROUP, 4 for CLUSTER and 5 for TRANSACTIONAL_ID, both in what a client asks and in
/// what it is told. In settings and in the audit it has the name of Kafka's own tools.
pub fn resource_types_have_numbers()
    ensures told { NumbersKinds kind_code }
    ensures told_only { IsTheOnly NumbersKinds kind_code }
    ensures not_group_and_transactional_numbers_swapped { ¬ NumbersKinds group_and_transactional_numbers_swapped }
    ensures read { ReadsKinds kind_at }
    ensures read_only { IsTheOnly ReadsKinds kind_at }
    ensures not_group_and_transactional_read_swapped { ¬ ReadsKinds group_and_transactional_read_swapped }
    ensures named { NamesKinds kind_name }
    ensures named_only { IsTheOnly NamesKinds kind_name }
    ensures not_group_and_transactional_names_swapped { ¬ NamesKinds group_and_transactional_names_swapped }
    ensures name_read { ReadsNamesOfKinds kind_named }
    ensures name_read_only { IsTheOnly ReadsNamesOfKinds kind_named }
    ensures not_group_and_transactional_names_read_swapped { ¬ ReadsNamesOfKinds group_and_transactional_names_read_swapped }
{}

/// A binding's pattern type is 3 for LITERAL and 4 for PREFIXED, both in what a client asks and in what it is told. In settings
/// and in the audit it has these names.
pub fn pattern_types_have_numbers()
    ensures told { NumbersPatterns pattern_code }
    ensures told_only { IsTheOnly NumbersPatterns pattern_code }
    ensures not_literal_and_prefixed_numbers_swapped { ¬ NumbersPatterns literal_and_prefixed_numbers_swapped }
    ensures read { ReadsPatterns pattern_at }
    ensures read_only { IsTheOnly ReadsPatterns pattern_at }
    ensures not_literal_and_prefixed_read_swapped { ¬ ReadsPatterns literal_and_prefixed_read_swapped }
    ensures named { NamesPatterns pattern_name }
    ensures named_only { IsTheOnly NamesPatterns pattern_name }
    ensures not_literal_and_prefixed_names_swapped { ¬ NamesPatterns literal_and_prefixed_names_swapped }
    ensures name_read { ReadsNamesOfPatterns pattern_named }
    ensures name_read_only { IsTheOnly ReadsNamesOfPatterns pattern_named }
    ensures not_literal_and_prefixed_names_read_swapped { ¬ ReadsNamesOfPatterns literal_and_prefixed_names_read_swapped }
{}

/// A filter's pattern type is 1 for ANY, 2 for MATCH, 3 for LITERAL and 4 for PREFIXED.
pub fn filter_pattern_types_have_numbers()
    ensures told { NumbersFilterPatterns filter_pattern_code }
    ensures told_only { IsTheOnly NumbersFilterPatterns filter_pattern_code }
    ensures not_any_and_match_numbers_swapped { ¬ NumbersFilterPatterns any_and_match_numbers_swapped }
    ensures read { ReadsFilterPatterns filter_pattern_at }
    ensures read_only { IsTheOnly ReadsFilterPatterns filter_pattern_at }
    ensures not_any_and_match_read_swapped { ¬ ReadsFilterPatterns any_and_match_read_swapped }
{}

/// An operation has the number that Kafka gives it, from 2 for ALL, 3 for READ and 4 for WRITE to 12 for IDEMPOTENT_WRITE, both
/// in what a client asks and in what it is told. In settings and in the audit it has the name of Kafka's own tools.
pub fn operations_have_numbers()
    ensures told { NumbersOperations operation_code }
    ensures told_only { IsTheOnly NumbersOperations operation_code }
    ensures not_read_and_write_numbers_swapped { ¬ NumbersOperations read_and_write_numbers_swapped }
    ensures read { ReadsOperations operation_at }
    ensures read_only { IsTheOnly ReadsOperations operation_at }
    ensures not_read_and_write_read_swapped { ¬ ReadsOperations read_and_write_read_swapped }
    ensures named { NamesOperations operation_name }
    ensures named_only { IsTheOnly NamesOperations operation_name }
    ensures not_read_and_write_names_swapped { ¬ NamesOperations read_and_write_names_swapped }
    ensures name_read { ReadsNamesOfOperations operation_named }
    ensures name_read_only { IsTheOnly ReadsNamesOfOperations operation_named }
    ensures not_read_and_write_names_read_swapped { ¬ ReadsNamesOfOperations read_and_write_names_read_swapped }
{}

/// A permission type is 2 for DENY and 3 for ALLOW, both in what a client asks and in what it is told. In settings and in the
/// audit it has these names.
pub fn permission_types_have_numbers()
    ensures told { NumbersPermissions permission_code }
    ensures told_only { IsTheOnly NumbersPermissions permission_code }
    ensures not_deny_and_allow_numbers_swapped { ¬ NumbersPermissions deny_and_allow_numbers_swapped }
    ensures read { ReadsPermissions permission_at }
    ensures read_only { IsTheOnly ReadsPermissions permission_at }
    ensures not_deny_and_allow_read_swapped { ¬ ReadsPermissions deny_and_allow_read_swapped }
    ensures named { NamesPermissions permission_name }
    ensures named_only { IsTheOnly NamesPermissions permission_name }
    ensures not_deny_and_allow_names_swapped { ¬ NamesPermissions deny_and_allow_names_swapped }
    ensures name_read { ReadsNamesOfPermissions permission_named }
    ensures name_read_only { IsTheOnly ReadsNamesOfPermissions permission_named }
    ensures not_deny_and_allow_names_read_swapped { ¬ ReadsNamesOfPermissions deny_and_allow_names_read_swapped }
{}
