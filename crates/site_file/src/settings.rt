//! A site's settings, and how they are read.

ghost use Rattle.std.specs.Prelude.{◌≡◌, ◌≤◌, ℕ, IfOk, IsErrOf, length};
ghost use Rattle.serde_json.specs.Find.{as_object, get};
ghost use Rattle.serde_json.specs.View.{view};
ghost use Rattle.ledger_rows.specs.Form.{IsCfg};
ghost use Rattle.ledger_rows.specs.Opening.{IsOpening};
ghost use Rattle.site_file.specs.SiteFile.{IsSaidBy, IsSaidByFields, IsSiteOf, Says, Wrong, field_names};
ghost use Rattle.site_file.specs.Fields.{has_only};

use crate::fields::has_only;
use crate::hashers::cfg_of;
use crate::numbered_fields::{
    SettingsFault, backends_field, common_field, hashers_field, hosts_field, iterations_field,
    keys_field, opening_field, origins_field, truth_field,
};
use ledger_rows::Opening;
use middleware_chain::Settings;
use serde_json::Value;
use std::alloc::Global;

/// The greatest settings file, in bytes.
pub const MOST_BYTES: usize = 4_194_304;

/// What a settings file says.
#[derive(Drop)]
pub struct SettingsAll {
    pub settings: Settings,
    pub opening: Opening,
}

/// Reads a settings file. `docs/SETTINGS.md` lists the fields, their numbers and forms.
#[tactic(auto, unfolding(crate::specs::SiteFile::IsSiteOf))]
pub fn read_settings(alloc: Global, bytes: &[u8]) -> Result<SettingsAll, SettingsFault>
    ensures ok { IfOk result (λ site. IsSiteOf bytes.now (Says site)) }
    ensures wrong { (field : ℕ) → IsErrOf result (SettingsFault.Wrong field) → IsSiteOf bytes.now (Wrong field) }
    ensures opening { IfOk result (λ site. IsOpening site.opening) }
    ensures cfg { IfOk result (λ site. IsCfg site.settings.cfg) }
{
    if bytes.len() > MOST_BYTES {
        return Err(SettingsFault::Wrong { field: 0 });
    }
    match Value::from_slice(alloc, bytes) {
        Ok(value) => said_by(alloc, &value),
        Err(error) => if error.is_memory() {
            Err(SettingsFault::Memory)
        } else {
            Err(SettingsFault::Wrong { field: 0 })
        },
    }
}

fn said_by(alloc: Global, value: &Value) -> Result<SettingsAll, SettingsFault>
    ensures ok { IfOk result (λ site. IsSaidBy (view value.now) (Says site)) }
    ensures wrong { (field : ℕ) → IsErrOf result (SettingsFault.Wrong field) → IsSaidBy (view value.now) (Wrong field) }
    ensures opening { IfOk result (λ site. IsOpening site.opening) }
    ensures cfg { IfOk result (λ site. IsCfg site.settings.cfg) }
{
    if has_field_names(value) {
        said_by_fields(alloc, value)
    } else {
        Err(SettingsFault::Wrong { field: 0 })
    }
}

#[tactic(auto, unfolding(crate::specs::SiteFile::field_names))]
fn has_field_names(value: &Value) -> bool
    ensures { result ≡ has_only field_names (as_object (view value.now)) }
{
    has_only(
        value,
        &[
            "keys",
            "allowed_hosts",
            "trusted_origins",
            "backends",
            "hashers",
            "iterations",
            "proxy_secure",
            "cookie_secure",
            "common",
            "opening",
        ],
    )
}

#[tactic(auto, unfolding(crate::specs::SiteFile::IsSaidByFields))]
fn said_by_fields(alloc: Global, value: &Value) -> Result<SettingsAll, SettingsFault>
    ensures ok { IfOk result (λ site. IsSaidByFields (view value.now) (Says site)) }
    ensures wrong { (field : ℕ) → IsErrOf result (SettingsFault.Wrong field) → IsSaidByFields (view value.now) (Wrong field) }
    ensures opening { IfOk result (λ site. IsOpening site.opening) }
    ensures cfg { IfOk result (λ site. IsCfg site.settings.cfg) }
{
    let keys = keys_field(alloc, value)?;
    let allowed = hosts_field(alloc, value)?;
    let trusted = origins_field(alloc, value)?;
    let backends = backends_field(alloc, value)?;
    let installed = hashers_field(alloc, value)?;
    let iterations = iterations_field(value)?;
    let proxy_secure = truth_field(value, "proxy_secure", 9)?;
    let cookie_secure = truth_field(value, "cookie_secure", 10)?;
    let common = common_field(alloc, value)?;
    let opening = opening_field(alloc, keys, backends.as_slice(), value)?;
    let cfg = cfg_of(backends, installed, iterations);
    Ok(SettingsAll {
        settings: Settings {
            cfg,
            allowed,
            trusted,
            proxy_secure,
            cookie_secure,
            common,
        },
        opening,
    })
}
