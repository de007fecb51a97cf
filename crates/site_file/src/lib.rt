//! The settings file of a site: one JSON object. `read_settings` reads it, and reports the number of the
//! first field that isn't well formed; `SiteFile.IsSiteOf` says which file says what.
#![tactic(auto)]

mod backends;
mod entries;
mod fields;
mod hashers;
pub mod laws;
mod numbered_fields;
mod opening;
mod opening_form;
mod row_ids;
mod session_form;
mod settings;
#[cfg(test)]
mod tests;
mod texts;
mod trusted_origins;

pub use crate::entries::{Entries, SessionEntry};
pub use crate::numbered_fields::SettingsFault;
pub use crate::settings::{MOST_BYTES, SettingsAll, read_settings};
