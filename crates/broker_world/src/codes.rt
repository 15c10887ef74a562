//! The error codes of answers.

ghost use Rattle.std.specs.Prelude.{◌≡◌};
ghost use Rattle.broker_world.specs.Codes.{code_in, code_unless_none};

use wire_types::ErrorCode;

/// The error code of a result, NONE for `Ok`.
pub fn code_in(answer: Result<(), ErrorCode>) -> ErrorCode
    ensures { result ≡ code_in answer }
{
    match answer {
        Ok(()) => ErrorCode::None,
        Err(code) => code,
    }
}

/// The error code of a refusal, `None` for NONE.
pub fn refused_by(code: ErrorCode) -> Option<ErrorCode>
    ensures { result ≡ code_unless_none code }
{
    match code {
        ErrorCode::None => None,
        _ => Some(code),
    }
}
