//! The pages that need no route.

ghost use Rattle.std.specs.Prelude.{◌≡◌, IfOk, IfSome};
ghost use Rattle.http_edge.specs.ResponseText.{IsStatus};
ghost use Rattle.middleware_chain.specs.Page.{delivery_of, fault_page, full_page, is_head, last_page, memory_text, plain_page, store_page, undone_page};

use crypto_text::{Text, TextList};
use http_edge::{EdgeFault, Method, Request, Response};
use std::alloc::{AllocError, Global};

/// The response where memory is out, ready to be sent: making one would take memory.
const MEMORY_RESPONSE: &[u8] =
    b"HTTP/1.1 500 Internal Server Error\r\nContent-Type: text/plain; charset=utf-8\r\nContent-Length: 13\r\nX-Content-Type-Options: nosniff\r\nReferrer-Policy: same-origin\r\nCross-Origin-Opener-Policy: same-origin\r\nX-Frame-Options: DENY\r\nConnection: close\r\n\r\nerror=memory\n";

/// What a response takes over from its request, whatever its page.
#[derive(Clone, Copy, Debug, PartialEq, Eq)]
pub struct Delivery {
    /// Whether the connection may stay open.
    pub keep: bool,
    /// Whether the body is left out.
    pub head_only: bool,
}

/// What the response to a request takes over from it.
pub fn delivery_of(request: &Request) -> Delivery
    ensures { result ≡ delivery_of request.now }
{
    Delivery {
        keep: request.keep,
        head_only: is_head(request.method),
    }
}

/// The whole text of the response where memory is out.
pub fn memory_response() -> &'static [u8]
    ensures { result.now ≡ memory_text }
{
    MEMORY_RESPONSE
}

/// The page of malformed input. There is none after a failed read, and where memory was out.
#[tactic(auto, unfolding(http_edge::specs::ResponseText::reason_phrase))]
pub fn fault_page(alloc: Global, fault: EdgeFault) -> Result<Option<Response>, AllocError>
    ensures value { IfOk result (λ page. page ≡ fault_page fault) }
    ensures status { IfOk result (λ page. IfSome page (λ response. IsStatus response.status)) }
{
    match fault {
        EdgeFault::BadHead => Ok(Some(last_page(alloc, 400, "error=bad-head\n")?)),
        EdgeFault::HeadTooLong => Ok(Some(last_page(alloc, 431, "error=head-too-long\n")?)),
        EdgeFault::TransferCoding => Ok(Some(last_page(alloc, 501, "error=transfer-coding\n")?)),
        EdgeFault::ContentCoding => Ok(Some(last_page(alloc, 415, "error=content-coding\n")?)),
        EdgeFault::NoLength => Ok(Some(last_page(alloc, 411, "error=no-length\n")?)),
        EdgeFault::BodyTooLong => Ok(Some(last_page(alloc, 400, "error=body-too-long\n")?)),
        EdgeFault::CutShort => Ok(Some(last_page(alloc, 400, "error=cut-short\n")?)),
        EdgeFault::ReadFault | EdgeFault::Memory => Ok(None),
    }
}

/// The page of a request in one of whose steps the store failed.
#[tactic(auto, unfolding(http_edge::specs::ResponseText::reason_phrase))]
pub fn store_page(alloc: Global, request: &Request) -> Result<Response, AllocError>
    ensures value { IfOk result (λ page. page ≡ store_page request.now) }
    ensures status { IfOk result (λ page. IsStatus page.status) }
{
    undone_page(alloc, "error=store\n", request)
}

/// The page of a request at one of whose steps the audit list was full.
#[tactic(auto, unfolding(http_edge::specs::ResponseText::reason_phrase))]
pub fn full_page(alloc: Global, request: &Request) -> Result<Response, AllocError>
    ensures value { IfOk result (λ page. page ≡ full_page request.now) }
    ensures status { IfOk result (λ page. IsStatus page.status) }
{
    undone_page(alloc, "error=full\n", request)
}

/// A page without a redirect and without cookies.
pub fn plain_page(
    alloc: Global,
    status: u16,
    body: &str,
    delivery: Delivery,
) -> Result<Response, AllocError>
    ensures { IfOk result (λ page. page ≡ plain_page status body.now delivery) }
{
    Ok(Response {
        status,
        body: Text::of(alloc, body)?,
        location: None,
        allow: None,
        vary: false,
        cookies: TextList::from_vec(Vec::new(alloc)),
        keep: delivery.keep,
        head_only: delivery.head_only,
    })
}

fn last_page(alloc: Global, status: u16, body: &str) -> Result<Response, AllocError>
    ensures { IfOk result (λ page. page ≡ last_page status body.now) }
{
    let delivery = Delivery {
        keep: false,
        head_only: false,
    };
    plain_page(alloc, status, body, delivery)
}

fn undone_page(alloc: Global, body: &str, request: &Request) -> Result<Response, AllocError>
    ensures { IfOk result (λ page. page ≡ undone_page body.now request.now) }
{
    Ok(Response {
        vary: true,
        ..plain_page(alloc, 503, body, delivery_of(request))?
    })
}

fn is_head(method: Method) -> bool
    ensures { result ≡ is_head method }
{
    match method {
        Method::Head => true,
        Method::Get | Method::Post | Method::Other => false,
    }
}
