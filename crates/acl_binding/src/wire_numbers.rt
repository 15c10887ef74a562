//! The words of a binding and of a filter by the numbers that the protocol gives them.

ghost use Rattle.std.specs.Prelude.{◌≡◌};
ghost use Rattle.std.specs.List.{find};
ghost use Rattle.std.specs.Ordering.{int_eq};
ghost use Rattle.acl_binding.specs.WireNumbers.{kind_code, pattern_code, operation_code, permission_code, filter_pattern_code, kind_at, pattern_at, operation_at, permission_at, filter_pattern_at};

use crate::filter::FilterPattern;
use crate::names::{KINDS, OPERATIONS, PATTERNS, PERMISSIONS};
use crate::words::{Kind, Operation, Pattern, Permission};

const FILTER_PATTERNS: [FilterPattern; 4] = [
    FilterPattern::Any,
    FilterPattern::Match,
    FilterPattern::Literal,
    FilterPattern::Prefixed,
];

impl Kind {
    /// The number that the protocol gives the kind (`ResourceType`).
    #[tactic(auto, unfolding(crate::specs::WireNumbers::kind_code))]
    pub fn number(self) -> i8
        ensures { result ≡ kind_code self }
    {
        self as i8
    }

    /// The kind that the protocol gives this number, `None` if it is none of those above: also for ANY (1), which only filters
    /// have, and for kinds that this broker lacks.
    #[tactic(auto, unfolding(crate::specs::WireNumbers::kind_at))]
    pub fn of_number(number: i8) -> Option<Kind>
        ensures { result ≡ kind_at number }
    {
        kind_among(&KINDS, number)
    }
}

/// The first of these kinds that has this number, or None.
fn kind_among(kinds: &[Kind], number: i8) -> Option<Kind>
    ensures { result ≡ find (λ k. int_eq (kind_code k) number) kinds.now }
{
    kinds.iter().copied().find(|kind| kind.number() == number)
}

impl Pattern {
    /// The number that the protocol gives the pattern type (`PatternType`).
    #[tactic(auto, unfolding(crate::specs::WireNumbers::pattern_code))]
    pub fn number(self) -> i8
        ensures { result ≡ pattern_code self }
    {
        self as i8
    }

    /// The pattern type that the protocol gives this number. `None` if it is unknown or only for filters.
    #[tactic(auto, unfolding(crate::specs::WireNumbers::pattern_at))]
    pub fn of_number(number: i8) -> Option<Pattern>
        ensures { result ≡ pattern_at number }
    {
        pattern_among(&PATTERNS, number)
    }
}

/// The first of these pattern types that has this number, or None.
fn pattern_among(patterns: &[Pattern], number: i8) -> Option<Pattern>
    ensures { result ≡ find (λ p. int_eq (pattern_code p) number) patterns.now }
{
    patterns
        .iter()
        .copied()
        .find(|pattern| pattern.number() == number)
}

impl Operation {
    /// The number that the protocol gives the operation (`AclOperation`).
    #[tactic(auto, unfolding(crate::specs::WireNumbers::operation_code))]
    pub fn number(self) -> i8
        ensures { result ≡ operation_code self }
    {
        self as i8
    }

    /// The operation that the protocol gives this number, `None` if it is none of those above: also for ANY (1), which only
    /// filters have, and for operations that this broker lacks.
    #[tactic(auto, unfolding(crate::specs::WireNumbers::operation_at))]
    pub fn of_number(number: i8) -> Option<Operation>
        ensures { result ≡ operation_at number }
    {
        operation_among(&OPERATIONS, number)
    }
}

/// The first of these operations that has this number, or None.
fn operation_among(operations: &[Operation], number: i8) -> Option<Operation>
    ensures { result ≡ find (λ op. int_eq (operation_code op) number) operations.now }
{
    operations.iter().copied().find(|op| op.number() == number)
}

impl Permission {
    /// The number that the protocol gives the permission (`AclPermissionType`).
    #[tactic(auto, unfolding(crate::specs::WireNumbers::permission_code))]
    pub fn number(self) -> i8
        ensures { result ≡ permission_code self }
    {
        self as i8
    }

    /// The permission that the protocol gives this number: DENY for 2, ALLOW for 3. `None` for any other, so also for ANY (1),
    /// which only filters have.
    #[tactic(auto, unfolding(crate::specs::WireNumbers::permission_at))]
    pub fn of_number(number: i8) -> Option<Permission>
        ensures { result ≡ permission_at number }
    {
        permission_among(&PERMISSIONS, number)
    }
}

/// The first of these permissions that has this number, or None.
fn permission_among(permissions: &[Permission], number: i8) -> Option<Permission>
    ensures { result ≡ find (λ p. int_eq (permission_code p) number) permissions.now }
{
    permissions
        .iter()
        .copied()
        .find(|permission| permission.number() == number)
}

impl FilterPattern {
    /// The number that the protocol gives a filter's pattern type (`PatternType`).
    #[tactic(auto, unfolding(crate::specs::WireNumbers::filter_pattern_code))]
    fn number(self) -> i8
        ensures { result ≡ filter_pattern_code self }
    {
        self as i8
    }

    /// The pattern type of a filter that the protocol gives this number, `None` if it is unknown.
    #[tactic(auto, unfolding(crate::specs::WireNumbers::filter_pattern_at))]
    pub fn of_number(number: i8) -> Option<FilterPattern>
        ensures { result ≡ filter_pattern_at number }
    {
        filter_pattern_among(&FILTER_PATTERNS, number)
    }
}

/// The first of these pattern types of filters that has this number, or None.
fn filter_pattern_among(patterns: &[FilterPattern], number: i8) -> Option<FilterPattern>
    ensures { result ≡ find (λ p. int_eq (filter_pattern_code p) number) patterns.now }
{
    patterns
        .iter()
        .copied()
        .find(|pattern| pattern.number() == number)
}
