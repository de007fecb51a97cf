//! The fields of a settings file by their names, and refused by their numbers.

ghost use Rattle.std.specs.Prelude.{◌≡◌, ◌≤◌, ℕ, Bool, List, IfOk, IsErrOf, codes, length};
ghost use Rattle.serde_json.specs.Find.{get};
ghost use Rattle.serde_json.specs.View.{view};
ghost use Rattle.csrf_tokens.specs.declared.verdict.Trusted.{Trusted};
ghost use Rattle.pass_hashers.specs.PasswordText.{AreIterations};
ghost use Rattle.pass_hashers.specs.declared.hasher.Algo.{Algo};
ghost use Rattle.ledger_rows.specs.Opening.{IsOpening};
ghost use Rattle.ledger_rows.specs.declared.rows.Backend.{Backend};
ghost use Rattle.ledger_rows.specs.declared.rows.Opening.{Opening};
ghost use Rattle.site_file.specs.OpeningForm.{IsOpeningOf};
ghost use Rattle.site_file.specs.SiteFile.{AreBackendsOf, AreCommonOf, AreHashersOf, AreHostsOf, AreIterationsOf, AreKeysOf, AreOriginsOf, IsTruthOf, IsWrongField};

use crate::backends::backends_of;
use crate::fields::{FieldFault, truth_of};
use crate::hashers::{hashers_of, iterations_of};
use crate::opening::opening_of;
use crate::texts::{common_of, hosts_of, keys_of};
use crate::trusted_origins::origins_of;
use crypto_text::TextList;
use csrf_tokens::Trusted;
use ledger_rows::{Backend, Opening, RowList};
use pass_hashers::Algo;
use serde_json::Value;
use signing_core::Keys;
use std::alloc::{AllocError, Global};
use thiserror::Error;

/// Why a settings file isn't taken.
#[derive(Clone, Copy, Debug, Drop, Error, PartialEq, Eq)]
pub enum SettingsFault {
    /// The number of the first field that isn't well formed; 0 where the bytes are no JSON object, are too
    /// many, or name an unknown field.
    #[error("the field {field} of the settings isn't well formed")]
    Wrong { field: u32 },
    #[error("out of memory")]
    Memory,
}

impl From<AllocError> for SettingsFault {
    ghost use Rattle.std.specs.Prelude.{◌≡◌};
    ghost use Rattle.site_file.specs.declared.numbered_fields.SettingsFault.TheVariants.{Memory};

    ghost from_gives = { λ _ fault. fault ≡ Memory };

    fn from(_: AllocError) -> SettingsFault {
        SettingsFault::Memory
    }
}

pub(crate) fn keys_field(alloc: Global, value: &Value) -> Result<Keys, SettingsFault>
    ensures ok { IfOk result (AreKeysOf (get (codes "keys") (view value.now))) }
    ensures wrong { (field : ℕ) → IsErrOf result (SettingsFault.Wrong field) → IsWrongField field 1 (AreKeysOf (get (codes "keys") (view value.now))) }
{
    match keys_of(alloc, value.get("keys")) {
        Ok(keys) => Ok(keys),
        Err(fault) => Err(numbered(fault, 1)),
    }
}

pub(crate) fn hosts_field(alloc: Global, value: &Value) -> Result<TextList, SettingsFault>
    ensures ok { IfOk result (AreHostsOf (get (codes "allowed_hosts") (view value.now))) }
    ensures wrong { (field : ℕ) → IsErrOf result (SettingsFault.Wrong field) → IsWrongField field 2 (AreHostsOf (get (codes "allowed_hosts") (view value.now))) }
{
    match hosts_of(alloc, value.get("allowed_hosts")) {
        Ok(hosts) => Ok(hosts),
        Err(fault) => Err(numbered(fault, 2)),
    }
}

pub(crate) fn origins_field(alloc: Global, value: &Value) -> Result<RowList<Trusted>, SettingsFault>
    ensures ok { IfOk result (AreOriginsOf (get (codes "trusted_origins") (view value.now))) }
    ensures wrong { (field : ℕ) → IsErrOf result (SettingsFault.Wrong field) → IsWrongField field 3 (AreOriginsOf (get (codes "trusted_origins") (view value.now))) }
{
    match origins_of(alloc, value.get("trusted_origins")) {
        Ok(trusted) => Ok(trusted),
        Err(fault) => Err(numbered(fault, 3)),
    }
}

pub(crate) fn backends_field(alloc: Global, value: &Value) -> Result<Vec<Backend>, SettingsFault>
    ensures ok { IfOk result (λ backends. AreBackendsOf (get (codes "backends") (view value.now)) backends.items) }
    ensures some { IfOk result (λ backends. 1 ≤ length backends.items) }
    ensures wrong { (field : ℕ) → IsErrOf result (SettingsFault.Wrong field) → IsWrongField field 4 (AreBackendsOf (get (codes "backends") (view value.now))) }
{
    match backends_of(alloc, value.get("backends")) {
        Ok(backends) => Ok(backends),
        Err(fault) => Err(numbered(fault, 4)),
    }
}

pub(crate) fn hashers_field(alloc: Global, value: &Value) -> Result<Vec<Algo>, SettingsFault>
    ensures ok { IfOk result (λ installed. AreHashersOf (get (codes "hashers") (view value.now)) installed.items) }
    ensures some { IfOk result (λ installed. 1 ≤ length installed.items) }
    ensures wrong { (field : ℕ) → IsErrOf result (SettingsFault.Wrong field) → IsWrongField field 5 (AreHashersOf (get (codes "hashers") (view value.now))) }
{
    match hashers_of(alloc, value.get("hashers")) {
        Ok(installed) => Ok(installed),
        Err(fault) => Err(numbered(fault, 5)),
    }
}

pub(crate) fn iterations_field(value: &Value) -> Result<u32, SettingsFault>
    ensures ok { IfOk result (AreIterationsOf (get (codes "iterations") (view value.now))) }
    ensures allowed { IfOk result AreIterations }
    ensures wrong { (field : ℕ) → IsErrOf result (SettingsFault.Wrong field) → IsWrongField field 6 (AreIterationsOf (get (codes "iterations") (view value.now))) }
{
    match iterations_of(value.get("iterations")) {
        Ok(iterations) => Ok(iterations),
        Err(fault) => Err(numbered(fault, 6)),
    }
}

pub(crate) fn truth_field(value: &Value, name: &str, number: u32) -> Result<bool, SettingsFault>
    ensures ok { IfOk result (IsTruthOf (get name.now (view value.now))) }
    ensures wrong { (field : ℕ) → IsErrOf result (SettingsFault.Wrong field) → IsWrongField field number (IsTruthOf (get name.now (view value.now))) }
{
    match truth_of(value.get(name)) {
        Ok(truth) => Ok(truth),
        Err(fault) => Err(numbered(fault, number)),
    }
}

pub(crate) fn common_field(alloc: Global, value: &Value) -> Result<TextList, SettingsFault>
    ensures ok { IfOk result (AreCommonOf (get (codes "common") (view value.now))) }
    ensures wrong { (field : ℕ) → IsErrOf result (SettingsFault.Wrong field) → IsWrongField field 11 (AreCommonOf (get (codes "common") (view value.now))) }
{
    match common_of(alloc, value.get("common")) {
        Ok(common) => Ok(common),
        Err(fault) => Err(numbered(fault, 11)),
    }
}

pub(crate) fn opening_field(
    alloc: Global,
    keys: Keys,
    backends: &[Backend],
    value: &Value,
) -> Result<Opening, SettingsFault>
    ensures ok { IfOk result (IsOpeningOf keys backends.now (get (codes "opening") (view value.now))) }
    ensures opening { IfOk result (λ opening. IsOpening opening) }
    ensures wrong { (field : ℕ) → IsErrOf result (SettingsFault.Wrong field) → IsWrongField field 12 (IsOpeningOf keys backends.now (get (codes "opening") (view value.now))) }
{
    match opening_of(alloc, keys, backends, value.get("opening")) {
        Ok(opening) => Ok(opening),
        Err(fault) => Err(numbered(fault, 12)),
    }
}

fn numbered(fault: FieldFault, number: u32) -> SettingsFault
    ensures { (field : ℕ) → result ≡ SettingsFault.Wrong field → (fault ≡ FieldFault.Form) × (field ≡ number) }
{
    match fault {
        FieldFault::Form => SettingsFault::Wrong { field: number },
        FieldFault::Memory => SettingsFault::Memory,
    }
}
