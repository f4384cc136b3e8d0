//! Refusals, and how a request with two causes is told.

/// What a refusal's answer begins with, and what stands before the path.
pub type Refused = (&'static [u8], &'static [u8]);

/// A request, its refusal, and the path that it shows.
pub type Pair = (&'static [u8], Refused, &'static [u8]);

pub const ACCESS_DENIED: Refused = (
    b"HTTP/1.1 403 Forbidden\r\nDate: Tue, 14 Nov 2023 22:13:20 GMT\r\n",
    b"\
        Connection: close\r\n\r\n<?xml version=\"1.0\" encoding=\"UTF-8\"?>\n<Error><Code>AccessDenied</Code><Me\
        ssage>AccessDenied</Message><Resource>",
);

pub const AUTHORIZATION_HEADER_MALFORMED: Refused = (
    b"HTTP/1.1 400 Bad Request\r\nDate: Tue, 14 Nov 2023 22:13:20 GMT\r\n",
    b"\
        Connection: close\r\n\r\n<?xml version=\"1.0\" encoding=\"UTF-8\"?>\n<Error><Code>AuthorizationHeaderMal\
        formed</Code><Message>AuthorizationHeaderMalformed</Message><Resource>",
);

pub const ENTITY_TOO_LARGE: Refused = (
    b"HTTP/1.1 400 Bad Request\r\nDate: Tue, 14 Nov 2023 22:13:20 GMT\r\n",
    b"\
        Connection: close\r\n\r\n<?xml version=\"1.0\" encoding=\"UTF-8\"?>\n<Error><Code>EntityTooLarge</Code><\
        Message>EntityTooLarge</Message><Resource>",
);

pub const INCOMPLETE_BODY: Refused = (
    b"HTTP/1.1 400 Bad Request\r\nDate: Tue, 14 Nov 2023 22:13:20 GMT\r\n",
    b"\
        Connection: close\r\n\r\n<?xml version=\"1.0\" encoding=\"UTF-8\"?>\n<Error><Code>IncompleteBody</Code><\
        Message>IncompleteBody</Message><Resource>",
);

pub const INVALID_ACCESS_KEY_ID: Refused = (
    b"HTTP/1.1 403 Forbidden\r\nDate: Tue, 14 Nov 2023 22:13:20 GMT\r\n",
    b"\
        Connection: close\r\n\r\n<?xml version=\"1.0\" encoding=\"UTF-8\"?>\n<Error><Code>InvalidAccessKeyId</Co\
        de><Message>InvalidAccessKeyId</Message><Resource>",
);

pub const INVALID_REQUEST: Refused = (
    b"HTTP/1.1 400 Bad Request\r\nDate: Tue, 14 Nov 2023 22:13:20 GMT\r\n",
    b"\
        Connection: close\r\n\r\n<?xml version=\"1.0\" encoding=\"UTF-8\"?>\n<Error><Code>InvalidRequest</Code><\
        Message>InvalidRequest</Message><Resource>",
);

pub const KEY_TOO_LONG_ERROR: Refused = (
    b"HTTP/1.1 400 Bad Request\r\nDate: Tue, 14 Nov 2023 22:13:20 GMT\r\n",
    b"\
        Content-Type: application/xml\r\n\r\n<?xml version=\"1.0\" encoding=\"UTF-8\"?>\n<Error><Code>KeyTooLong\
        Error</Code><Message>KeyTooLongError</Message><Resource>",
);

pub const MISSING_CONTENT_LENGTH: Refused = (
    b"HTTP/1.1 411 Length Required\r\nDate: Tue, 14 Nov 2023 22:13:20 GMT\r\n",
    b"\
        Connection: close\r\n\r\n<?xml version=\"1.0\" encoding=\"UTF-8\"?>\n<Error><Code>MissingContentLength</\
        Code><Message>MissingContentLength</Message><Resource>",
);

pub const NOT_IMPLEMENTED: Refused = (
    b"HTTP/1.1 501 Not Implemented\r\nDate: Tue, 14 Nov 2023 22:13:20 GMT\r\n",
    b"\
        Connection: close\r\n\r\n<?xml version=\"1.0\" encoding=\"UTF-8\"?>\n<Error><Code>NotImplemented</Code><\
        Message>NotImplemented</Message><Resource>",
);

pub const NO_SUCH_KEY: Refused = (
    b"HTTP/1.1 404 Not Found\r\nDate: Tue, 14 Nov 2023 22:13:20 GMT\r\n",
    b"\
        Content-Type: application/xml\r\n\r\n<?xml version=\"1.0\" encoding=\"UTF-8\"?>\n<Error><Code>NoSuchKey<\
        /Code><Message>NoSuchKey</Message><Resource>",
);

pub const OTHER_BODY: Refused = (
    b"HTTP/1.1 400 Bad Request\r\nDate: Tue, 14 Nov 2023 22:13:20 GMT\r\n",
    b"\
        Content-Type: application/xml\r\n\r\n<?xml version=\"1.0\" encoding=\"UTF-8\"?>\n<Error><Code>XAmzConten\
        tSHA256Mismatch</Code><Message>XAmzContentSHA256Mismatch</Message><Resource>",
);

pub const REQUEST_TIME_TOO_SKEWED: Refused = (
    b"HTTP/1.1 403 Forbidden\r\nDate: Tue, 14 Nov 2023 22:13:20 GMT\r\n",
    b"\
        Connection: close\r\n\r\n<?xml version=\"1.0\" encoding=\"UTF-8\"?>\n<Error><Code>RequestTimeTooSkewed</\
        Code><Message>RequestTimeTooSkewed</Message><Resource>",
);

pub const SIGNATURE_DOES_NOT_MATCH: Refused = (
    b"HTTP/1.1 403 Forbidden\r\nDate: Tue, 14 Nov 2023 22:13:20 GMT\r\n",
    b"\
        Connection: close\r\n\r\n<?xml version=\"1.0\" encoding=\"UTF-8\"?>\n<Error><Code>SignatureDoesNotMatch<\
        /Code><Message>SignatureDoesNotMatch</Message><Resource>",
);

/// The path of a key of 1,025 bytes.
pub const LONG_PATH: &[u8] = b"\
    /pics/kkkkkkkkkkkkkkkkkkkkkkkkkkkkkkkkkkkkkkkkkkkkkkkkkkkkkkkkkkkkkkkkkkkkkkkkkkkkkkkkkkkkkkkkkkkkkkkkkk\
    kkkkkkkkkkkkkkkkkkkkkkkkkkkkkkkkkkkkkkkkkkkkkkkkkkkkkkkkkkkkkkkkkkkkkkkkkkkkkkkkkkkkkkkkkkkkkkkkkkkkkkkk\
    kkkkkkkkkkkkkkkkkkkkkkkkkkkkkkkkkkkkkkkkkkkkkkkkkkkkkkkkkkkkkkkkkkkkkkkkkkkkkkkkkkkkkkkkkkkkkkkkkkkkkkkk\
    kkkkkkkkkkkkkkkkkkkkkkkkkkkkkkkkkkkkkkkkkkkkkkkkkkkkkkkkkkkkkkkkkkkkkkkkkkkkkkkkkkkkkkkkkkkkkkkkkkkkkkkk\
    kkkkkkkkkkkkkkkkkkkkkkkkkkkkkkkkkkkkkkkkkkkkkkkkkkkkkkkkkkkkkkkkkkkkkkkkkkkkkkkkkkkkkkkkkkkkkkkkkkkkkkkk\
    kkkkkkkkkkkkkkkkkkkkkkkkkkkkkkkkkkkkkkkkkkkkkkkkkkkkkkkkkkkkkkkkkkkkkkkkkkkkkkkkkkkkkkkkkkkkkkkkkkkkkkkk\
    kkkkkkkkkkkkkkkkkkkkkkkkkkkkkkkkkkkkkkkkkkkkkkkkkkkkkkkkkkkkkkkkkkkkkkkkkkkkkkkkkkkkkkkkkkkkkkkkkkkkkkkk\
    kkkkkkkkkkkkkkkkkkkkkkkkkkkkkkkkkkkkkkkkkkkkkkkkkkkkkkkkkkkkkkkkkkkkkkkkkkkkkkkkkkkkkkkkkkkkkkkkkkkkkkkk\
    kkkkkkkkkkkkkkkkkkkkkkkkkkkkkkkkkkkkkkkkkkkkkkkkkkkkkkkkkkkkkkkkkkkkkkkkkkkkkkkkkkkkkkkkkkkkkkkkkkkkkkkk\
    kkkkkkkkkkkkkkkkkkkkkkkkkkkkkkkkkkkkkkkkkkkkkkkkkkkkkkkkkkkkkkkkkkkkkkkkkkkkkkkkkkkkkkkkkkkkkkk";
