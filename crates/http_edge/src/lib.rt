//! HTTP/1.1 at the edge of the program. `read_request` cuts a stream into requests by `RequestFraming`,
//! `form_fields` reads a form by `FormFields`, and `response_text` is the bytes of a response by `ResponseText`.
#![tactic(auto)]

mod body_length;
mod form_field;
mod head_watch;
mod header_fields;
mod laws;
mod pieces;
mod plan;
mod reader;
mod request;
mod request_head;
mod response;
#[cfg(test)]
mod tests;

pub use crate::form_field::{Field, FieldFault, field_count, form_fields};
pub use crate::laws::{framing_is_one, framing_stands};
pub use crate::reader::{Reader, read_request};
pub use crate::request::{EdgeFault, Method, Request};
pub use crate::response::{Response, is_status, response_text};
