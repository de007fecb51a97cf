//! The fields of a request: those of its form, and those of its query.

ghost use Rattle.std.specs.Prelude.{◌≡◌, ◌≤◌, IfOk, false};
ghost use Rattle.http_edge.specs.FormFields.{field_count, fields_of};
ghost use Rattle.middleware_chain.specs.FieldLimit.{has_too_many_fields};
ghost use Rattle.middleware_chain.specs.Fields.{body_fields, last_value, last_value_after};

use http_edge::{Field, FieldFault, Request, form_fields};
use ledger_rows::RowList;
use std::alloc::{AllocError, Global};

/// The fields of the body, where it is a form.
pub fn body_fields(alloc: Global, request: &Request) -> Result<RowList<Field>, AllocError>
    requires { has_too_many_fields request.now ≡ false }
    ensures { IfOk result (λ fields. fields ≡ body_fields request.now) }
{
    if request.form {
        few_fields(alloc, request.body.items())
    } else {
        Ok(RowList::from_vec(Vec::new(alloc)))
    }
}

/// The fields of the query.
pub fn query_fields(alloc: Global, request: &Request) -> Result<RowList<Field>, AllocError>
    requires { has_too_many_fields request.now ≡ false }
    ensures { IfOk result (λ fields. fields ≡ fields_of request.now.query) }
{
    few_fields(alloc, request.query.as_str().as_bytes())
}

fn few_fields(alloc: Global, bytes: &[u8]) -> Result<RowList<Field>, AllocError>
    requires { field_count bytes.now ≤ 1000 }
    ensures { IfOk result (λ fields. fields ≡ fields_of bytes.now) }
{
    match form_fields(alloc, bytes) {
        Ok(fields) => Ok(RowList::from_vec(fields)),
        Err(FieldFault::TooMany) => unreachable!(),
        Err(FieldFault::Memory) => Err(AllocError),
    }
}

/// The last value of a name, and the empty text where there is none.
#[tactic(auto, unfolding(crate::specs::Fields::last_value))]
pub fn last_value<'f>(fields: &'f [Field], name: &str) -> &'f str
    ensures { result.now ≡ last_value name.now fields.now }
{
    let mut found = "";
    let mut left = fields;
    'fields: while let [field, rest @ ..] = left {
        if field.name.as_str() == name {
            found = field.value.as_str();
        }
        left = rest;
    }
    found
}
