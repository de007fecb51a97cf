//! Requests, and why there is none.

ghost use Rattle.std.specs.Prelude.{◌≡◌};
ghost use Rattle.http_edge.specs.declared.request.EdgeFault.TheVariants.{Memory};

use crypto_text::{Bytes, Text};
use std::alloc::{AllocError, AllocFailed};
use thiserror::Error;

/// The methods that routes distinguish. Their names count byte for byte.
#[derive(Clone, Copy, Debug, PartialEq, Eq)]
pub enum Method {
    Get,
    Head,
    Post,
    Other,
}

/// A request. Of several fields of one name the first counts, and one that isn't UTF-8 counts as absent.
#[derive(Debug, Drop)]
pub struct Request {
    pub method: Method,
    /// The target up to its first question mark, and what comes after it.
    pub path: Text,
    pub query: Text,
    pub has_query: bool,
    pub host: Option<Text>,
    /// All lines of cookies as one, with `; ` between them.
    pub cookie: Option<Text>,
    pub origin: Option<Text>,
    pub referer: Option<Text>,
    /// `X-CSRFToken`.
    pub csrf: Option<Text>,
    /// `X-Forwarded-Proto`.
    pub proto: Option<Text>,
    /// Whether the body is `application/x-www-form-urlencoded`.
    pub form: bool,
    pub body: Bytes,
    /// Whether the client lets the connection stay open: HTTP/1.1 without `Connection: close`.
    pub keep: bool,
}

/// Why there is no request. They are reported in this order, but for the last three.
#[derive(Clone, Copy, Debug, PartialEq, Eq, Error)]
pub enum EdgeFault {
    #[error("the bytes begin no request head, or its host or length is there twice or malformed")]
    BadHead,
    #[error("no request head ends within 16,384 bytes, or it has more than 100 fields")]
    HeadTooLong,
    #[error("the request has a Transfer-Encoding")]
    TransferCoding,
    #[error("the body of the request is coded")]
    ContentCoding,
    #[error("the request is a POST without a Content-Length")]
    NoLength,
    /// As Django's `DATA_UPLOAD_MAX_MEMORY_SIZE`.
    #[error("the body of the request has more than 2,621,440 bytes")]
    BodyTooLong,
    #[error("the input ended inside a request")]
    CutShort,
    #[error("the source failed")]
    ReadFault,
    #[error("out of memory")]
    Memory,
}

impl From<AllocError> for EdgeFault {
    ghost from_gives = { λ _ fault. fault ≡ Memory };

    fn from(_: AllocError) -> EdgeFault {
        EdgeFault::Memory
    }
}

impl<T: Drop> From<AllocFailed<T>> for EdgeFault {
    ghost from_gives = { λ _ fault. fault ≡ Memory };

    fn from(_: AllocFailed<T>) -> EdgeFault {
        EdgeFault::Memory
    }
}
