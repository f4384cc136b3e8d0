//! Refusals.
ghost use Rattle.std.specs.Prelude.{◌≡◌};
ghost use Rattle.s3_model.specs.Faults.{status_of, closes_after, fault_of, head_fault_of};

use http::StatusCode;
use s3_model::{Code, S3Fault};

// The status that a code is answered with.
fn status(code: Code) -> u16
    ensures { result ≡ status_of code }
{
    let status = match code {
        Code::InvalidRequest
        | Code::EntityTooLarge
        | Code::IncompleteBody
        | Code::KeyTooLongError
        | Code::BadDigest
        | Code::InvalidArgument
        | Code::AuthorizationHeaderMalformed
        | Code::XAmzContentSHA256Mismatch => StatusCode::BAD_REQUEST,
        Code::AccessDenied
        | Code::InvalidAccessKeyId
        | Code::RequestTimeTooSkewed
        | Code::SignatureDoesNotMatch => StatusCode::FORBIDDEN,
        Code::NoSuchBucket | Code::NoSuchKey => StatusCode::NOT_FOUND,
        Code::MissingContentLength => StatusCode::LENGTH_REQUIRED,
        Code::InvalidRange => StatusCode::RANGE_NOT_SATISFIABLE,
        Code::NotImplemented => StatusCode::NOT_IMPLEMENTED,
    };
    status.as_u16()
}

fn closes(code: Code) -> bool
    ensures { result ≡ closes_after code }
{
    match code {
        Code::InvalidRequest
        | Code::NotImplemented
        | Code::MissingContentLength
        | Code::EntityTooLarge
        | Code::IncompleteBody
        | Code::AuthorizationHeaderMalformed
        | Code::InvalidAccessKeyId
        | Code::RequestTimeTooSkewed
        | Code::SignatureDoesNotMatch => true,
        Code::NoSuchBucket
        | Code::KeyTooLongError
        | Code::BadDigest
        | Code::InvalidArgument
        | Code::NoSuchKey
        | Code::InvalidRange
        | Code::AccessDenied
        | Code::XAmzContentSHA256Mismatch => false,
    }
}

/// The refusal with a code: its status, and whether the connection closes after it.
pub fn fault(code: Code) -> S3Fault
    ensures { result ≡ fault_of code }
{
    S3Fault {
        status: status(code),
        code,
        close: closes(code),
    }
}

/// The same where a head is refused with it, which closes the connection.
pub fn head_fault(code: Code) -> S3Fault
    ensures { result ≡ head_fault_of code }
{
    S3Fault {
        status: status(code),
        code,
        close: true,
    }
}
