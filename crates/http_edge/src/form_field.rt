//! The fields of a form.

ghost use Rattle.std.specs.Prelude.{◌≡◌, ◌<◌, ◌↔◌, IfOk, IsErrOf};
ghost use Rattle.http_edge.specs.FormFields.{decoded, field_count, fields_of};
ghost use Rattle.http_edge.specs.declared.form_field.FieldFault.TheVariants.{Memory};

use crypto_text::Text;
use form_urlencoded::{decode, raw_pairs};
use std::alloc::{AllocError, AllocFailed, Global};
use thiserror::Error;

const MOST_FORM_FIELDS: usize = 1000;

/// A field of a form, or a pair of a query.
#[derive(Debug, Drop)]
pub struct Field {
    pub name: Text,
    pub value: Text,
}

/// Why a form isn't read.
#[derive(Clone, Copy, Debug, PartialEq, Eq, Error)]
pub enum FieldFault {
    /// As Django's `DATA_UPLOAD_MAX_NUMBER_FIELDS`.
    #[error("the form has more than 1,000 fields")]
    TooMany,
    #[error("out of memory")]
    Memory,
}

impl From<AllocError> for FieldFault {
    ghost from_gives = { λ _ fault. fault ≡ Memory };

    fn from(_: AllocError) -> FieldFault {
        FieldFault::Memory
    }
}

impl<T: Drop> From<AllocFailed<T>> for FieldFault {
    ghost from_gives = { λ _ fault. fault ≡ Memory };

    fn from(_: AllocFailed<T>) -> FieldFault {
        FieldFault::Memory
    }
}

/// Reads the fields of a body or a query that is `application/x-www-form-urlencoded`, in order, also those that
/// have one name. They are counted before any memory is taken.
pub fn form_fields(alloc: Global, bytes: &[u8]) -> Result<Vec<Field>, FieldFault>
    ensures value { IfOk result (λ fields. fields.items ≡ fields_of bytes.now) }
    ensures too_many { IsErrOf result FieldFault.TooMany ↔ 1000 < field_count bytes.now }
{
    let count = field_count(bytes);
    if count > MOST_FORM_FIELDS {
        return Err(FieldFault::TooMany);
    }
    let mut fields = Vec::with_capacity(alloc, count)?;
    for (name, value) in raw_pairs(bytes) {
        fields.push(Field {
            name: decode_text(alloc, name)?,
            value: decode_text(alloc, value)?,
        })?;
    }
    Ok(fields)
}

/// How many fields `form_fields` finds, without reading them. Takes no memory.
pub fn field_count(bytes: &[u8]) -> usize
    ensures { result ≡ field_count bytes.now }
{
    let mut count = 0;
    for _pair in raw_pairs(bytes) {
        count += 1;
    }
    count
}

fn decode_text(alloc: Global, bytes: &[u8]) -> Result<Text, AllocError>
    ensures { IfOk result (λ text. text ≡ decoded bytes.now) }
{
    Ok(Text::from_string(decode(alloc, bytes)?.into_owned(alloc)?))
}

#[cfg(test)]
mod tests;
