//! Why a request is refused.
use crdt_core::Memory;
use std::alloc::AllocError;

/// The error codes of the S3 API that are answered.
#[derive(Debug, Clone, Copy, PartialEq, Eq)]
pub enum Code {
    InvalidRequest,
    NotImplemented,
    MissingContentLength,
    EntityTooLarge,
    IncompleteBody,
    NoSuchBucket,
    KeyTooLongError,
    BadDigest,
    InvalidArgument,
    NoSuchKey,
    InvalidRange,
    /// No key signed the request, or its key may not do what is asked.
    AccessDenied,
    AuthorizationHeaderMalformed,
    InvalidAccessKeyId,
    RequestTimeTooSkewed,
    SignatureDoesNotMatch,
    XAmzContentSHA256Mismatch,
}

/// A refusal: the status and the code of its answer, and whether the connection closes after it.
#[derive(Debug, Clone, Copy, PartialEq, Eq)]
pub struct S3Fault {
    /// The status code of HTTP.
    pub status: u16,
    pub code: Code,
    pub close: bool,
}

/// Why a head asks nothing that is served.
#[derive(Debug, Clone, Copy, PartialEq, Eq)]
pub enum AskFault {
    Refused(S3Fault),
    /// Memory was refused.
    Memory,
}

impl From<AllocError> for AskFault {
    ghost use Rattle.std.specs.Prelude.{◌≡◌};
    ghost use Rattle.s3_model.specs.declared.fault.AskFault.TheVariants.{Memory as Wanting};

    ghost from_gives = { λ _ fault. fault ≡ Wanting };

    fn from(_: AllocError) -> AskFault {
        AskFault::Memory
    }
}

impl From<Memory> for AskFault {
    ghost use Rattle.std.specs.Prelude.{◌≡◌};
    ghost use Rattle.s3_model.specs.declared.fault.AskFault.TheVariants.{Memory as Wanting};

    ghost from_gives = { λ _ fault. fault ≡ Wanting };

    fn from(_: Memory) -> AskFault {
        AskFault::Memory
    }
}
