use crate::{FieldFault, field_count, form_fields};
use std::test::Fail;

#[test]
fn a_form_is_read_in_order(rt: HostRuntime) -> Result<(), Fail> {
    let fields = form_fields(rt.alloc(), b"a=1&&b=%C3%A9+%26&a=2&c")?;
    let wanted = [("a", "1"), ("b", "\u{e9} &"), ("a", "2"), ("c", "")];
    assert_eq!(rt; fields.len(), wanted.len());
    for (field, (name, value)) in fields.iter().zip(wanted.iter()) {
        assert_eq!(rt; field.name.as_str(), *name);
        assert_eq!(rt; field.value.as_str(), *value);
    }
    Ok(())
}

#[test]
fn a_thousand_fields_are_read_and_one_more_is_refused(rt: HostRuntime) -> Result<(), Fail> {
    let alloc = rt.alloc();
    let mut form = Vec::new(alloc);
    for _ in 0..1000 {
        form.extend_from_slice(b"a=b&")?;
    }
    assert_eq!(rt; form_fields(alloc, &form)?.len(), 1000);
    form.push(b'c')?;
    assert_eq!(rt; field_count(&form), 1001);
    match form_fields(alloc, &form) {
        Ok(_) => panic!(rt; "1,001 fields are too many"),
        Err(fault) => assert_eq!(rt; fault, FieldFault::TooMany),
    }
    Ok(())
}
