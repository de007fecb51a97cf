//! A law about the definitions of this crate: a function that does nothing, whose clause the check
//! proves.

ghost use Rattle.site_file.specs.Laws.{FileSaysOneSite};

/// A file says one thing: one site, or one first wrong field.
pub fn file_says_one_site()
    ensures { FileSaysOneSite }
{}
