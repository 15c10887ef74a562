//! Events that only read.

ghost use Rattle.std.specs.Prelude.{◌≡◌};
ghost use Rattle.api_dispatch.specs.Step.{is_reading, is_reading_request};

use audit_trail::Event;
use msg_admin::Request;

/// Whether a request of this api only reads, so that the world is as it was after it is answered, and after an allocation
/// failure too.
fn is_reading_request(request: &Request) -> bool
    ensures { result ≡ is_reading_request request.now }
{
    match request {
        Request::Produce(_) => false,
        Request::Fetch(_) => true,
        Request::ListOffsets(_) => true,
        Request::Metadata(_) => true,
        Request::OffsetCommit(_) => false,
        Request::OffsetFetch(_) => true,
        Request::FindCoordinator(_) => true,
        Request::JoinGroup(_) => false,
        Request::Heartbeat(_) => false,
        Request::LeaveGroup(_) => false,
        Request::SyncGroup(_) => false,
        Request::SaslHandshake(_) => true,
        Request::ApiVersions => true,
        Request::InitProducerId(_) => false,
        Request::AddPartitionsToTxn(_) => false,
        Request::AddOffsetsToTxn(_) => false,
        Request::EndTxn(_) => false,
        Request::TxnOffsetCommit(_) => false,
        Request::DescribeAcls(_) => true,
        Request::CreateAcls(_) => false,
        Request::DeleteAcls(_) => false,
        Request::SaslAuthenticate(_) => true,
    }
}

/// Whether the event only reads: it changes nothing but the audit trail and the number of events. `false` for marker steps and
/// ticks.
pub fn is_reading(event: &Event) -> bool
    ensures { result ≡ is_reading event.now }
{
    match event {
        Event::Ask { request, .. } => is_reading_request(request),
        Event::Mark | Event::Tick(_) => false,
    }
}
