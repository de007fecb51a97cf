//! How many fields a request may have.

ghost use Rattle.std.specs.Prelude.{◌≡◌};
ghost use Rattle.middleware_chain.specs.FieldLimit.{has_too_many_fields};

use http_edge::{Request, field_count};

/// As Django's `DATA_UPLOAD_MAX_NUMBER_FIELDS`.
const MOST_FIELDS: usize = 1000;

/// Whether the query, or the body of a form, has too many fields.
pub fn has_too_many_fields(request: &Request) -> bool
    ensures { result ≡ has_too_many_fields request.now }
{
    field_count(request.query.as_str().as_bytes()) > MOST_FIELDS
        || (request.form && field_count(request.body.items()) > MOST_FIELDS)
}
