//! The address that a server listens on.

ghost use Rattle.std.specs.Prelude.{◌≡◌, ◌↔◌, IfErr, IfOk, IsTrue, Some, option_map};
ghost use Rattle.arguments.specs.Serving.{IsAddress, IsHost, IsPort};

use crate::misused::Misused;

/// Whether a text is a port number, 0 to 65535, in decimal digits.
fn is_port(text: &str) -> bool
    ensures { IsTrue result ↔ IsPort text.now }
{
    text.parse::<u16>().is_ok()
}

/// Whether a text can be a host: it isn't empty and has no slash. It isn't resolved or checked otherwise.
fn is_host(text: &str) -> bool
    ensures { IsTrue result ↔ IsHost text.now }
{
    !text.is_empty() && !text.contains('/')
}

/// Whether a text is `HOST:PORT`: a port number stands after its last colon, and a host before it.
fn is_address(text: &str) -> bool
    ensures { IsTrue result ↔ IsAddress text.now }
{
    match text.rsplit_once(':') {
        Some((host, port)) => is_host(host) && is_port(port),
        None => false,
    }
}

/// The value of `--listen`, `HOST:PORT`. The error is `Listen` where the option isn't given, the host is none, as where it begins
/// with `PLAINTEXT://`, or the port is none.
pub(crate) fn listen_of<'a>(text: Option<&'a str>) -> Result<&'a str, Misused>
    ensures within { IfOk result (λ address. IsAddress address.now) }
    ensures told { IfOk result (λ address. option_map (λ t. t.now) text.entry ≡ Some address.now) }
    ensures none { IfErr result
        (λ _. (address : _) → IsAddress address → option_map (λ t. t.now) text.entry ≡ Some address
        → ⊥) }
{
    match text {
        Some(text) if is_address(text) => Ok(text),
        _ => Err(Misused::Listen),
    }
}
