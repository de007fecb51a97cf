//! A law about the definitions of this crate: a function that does nothing, whose clause the check
//! proves.

ghost use Rattle.permissions.specs.Laws.{NamesAreInOrder};

/// The names of a set ascend in byte order, each stands once, and none is lost or added.
pub fn names_are_in_order()
    ensures { NamesAreInOrder }
{}
