//! The APIs that are served, and the table of them: the key of each on the wire, and its versions.

ghost use Rattle.std.specs.Prelude.{◌≡◌};
ghost use Rattle.std.specs.List.{find};
ghost use Rattle.std.specs.Ordering.{int_eq};
ghost use Rattle.msg_admin.specs.ApiKey.{row, served_api, number_of, is_served, key_at};

/// The API that a request is for, whatever the version, under Kafka's name.
#[derive(Clone, Copy, Debug, PartialEq, Eq)]
pub enum ApiKey {
    Produce,
    Fetch,
    ListOffsets,
    Metadata,
    OffsetCommit,
    OffsetFetch,
    FindCoordinator,
    JoinGroup,
    Heartbeat,
    LeaveGroup,
    SyncGroup,
    SaslHandshake,
    ApiVersions,
    InitProducerId,
    AddPartitionsToTxn,
    AddOffsetsToTxn,
    EndTxn,
    TxnOffsetCommit,
    DescribeAcls,
    CreateAcls,
    DeleteAcls,
    SaslAuthenticate,
}

/// A row of the table of served APIs.
#[derive(Clone, Copy, Debug, PartialEq, Eq)]
pub struct ServedApi {
    /// The API key on the wire.
    pub number: i16,
    /// The first version that is served, and the last; so is each in between.
    pub first: i16,
    pub last: i16,
    /// The first flexible version (KIP-482), or None if none up to the last served one is. It may be below the first served one.
    pub flexible_from: Option<i16>,
}

/// A row of the table of served APIs.
fn row(number: i16, first: i16, last: i16, flexible_from: Option<i16>) -> ServedApi
    ensures { result ≡ row number first last flexible_from }
{
    ServedApi {
        number,
        first,
        last,
        flexible_from,
    }
}

impl ApiKey {
    /// Every api, in rising order of numbers.
    pub const ALL: [ApiKey; 22] = [
        ApiKey::Produce,
        ApiKey::Fetch,
        ApiKey::ListOffsets,
        ApiKey::Metadata,
        ApiKey::OffsetCommit,
        ApiKey::OffsetFetch,
        ApiKey::FindCoordinator,
        ApiKey::JoinGroup,
        ApiKey::Heartbeat,
        ApiKey::LeaveGroup,
        ApiKey::SyncGroup,
        ApiKey::SaslHandshake,
        ApiKey::ApiVersions,
        ApiKey::InitProducerId,
        ApiKey::AddPartitionsToTxn,
        ApiKey::AddOffsetsToTxn,
        ApiKey::EndTxn,
        ApiKey::TxnOffsetCommit,
        ApiKey::DescribeAcls,
        ApiKey::CreateAcls,
        ApiKey::DeleteAcls,
        ApiKey::SaslAuthenticate,
    ];

    /// The api's row in the table: its key on the wire, the first and last version that are served, and the first flexible
    /// one.
    pub fn served(self) -> ServedApi
        ensures { result ≡ served_api self }
    {
        match self {
            ApiKey::Produce => row(0, 3, 3, None),
            ApiKey::Fetch => row(1, 4, 4, None),
            ApiKey::ListOffsets => row(2, 2, 2, None),
            ApiKey::Metadata => row(3, 1, 1, None),
            ApiKey::OffsetCommit => row(8, 2, 2, None),
            ApiKey::OffsetFetch => row(9, 7, 7, Some(6)),
            ApiKey::FindCoordinator => row(10, 1, 1, None),
            ApiKey::JoinGroup => row(11, 2, 2, None),
            ApiKey::Heartbeat => row(12, 1, 1, None),
            ApiKey::LeaveGroup => row(13, 1, 1, None),
            ApiKey::SyncGroup => row(14, 1, 1, None),
            ApiKey::SaslHandshake => row(17, 1, 1, None),
            ApiKey::ApiVersions => row(18, 0, 0, None),
            ApiKey::InitProducerId => row(22, 0, 0, None),
            ApiKey::AddPartitionsToTxn => row(24, 0, 0, None),
            ApiKey::AddOffsetsToTxn => row(25, 0, 0, None),
            ApiKey::EndTxn => row(26, 0, 5, Some(3)),
            ApiKey::TxnOffsetCommit => row(28, 3, 3, Some(3)),
            ApiKey::DescribeAcls => row(29, 1, 1, None),
            ApiKey::CreateAcls => row(30, 1, 1, None),
            ApiKey::DeleteAcls => row(31, 1, 1, None),
            ApiKey::SaslAuthenticate => row(36, 0, 0, None),
        }
    }

    /// The api's key on the wire.
    pub fn number(self) -> i16
        ensures { result ≡ number_of self }
    {
        self.served().number
    }

    /// Whether the api is served in this version.
    pub fn serves(self, version: i16) -> bool
        ensures { result ≡ is_served self version }
    {
        let served = self.served();
        served.first <= version && version <= served.last
    }

    /// The API with this key on the wire; None if none is served.
    #[tactic(auto, unfolding(crate::specs::ApiKey::key_at, crate::specs::ApiKey::all_keys))]
    pub fn of(number: i16) -> Option<ApiKey>
        ensures { result ≡ key_at number }
    {
        first_numbered(&ApiKey::ALL, number)
    }
}

/// The first of these APIs that has this key on the wire, or None.
fn first_numbered(keys: &[ApiKey], number: i16) -> Option<ApiKey>
    ensures { result ≡ find (λ key. int_eq (number_of key) number) keys.now }
{
    keys.iter().copied().find(|key| key.number() == number)
}
