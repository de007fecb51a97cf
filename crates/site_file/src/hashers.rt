//! The fields `hashers` and `iterations`.

ghost use Rattle.std.specs.Prelude.{◌≡◌, ◌∷◌, ◌≤◌, ℕ, List, [], None, Some, IfOk, IsErrOf, length, option_map};
ghost use Rattle.serde_json.specs.View.{view};
ghost use Rattle.ledger_rows.specs.Form.{IsCfg};
ghost use Rattle.pass_hashers.specs.PasswordText.{AreIterations};
ghost use Rattle.pass_hashers.specs.declared.hasher.Algo.{Algo};
ghost use Rattle.site_file.specs.SiteFile.{AreHashersOf, AreIterationsOf, AreNamesOf, algo_named, algos_named, cfg_of, hasher_of, preferred_of};

use crate::fields::{FieldFault, list_of};
use crypto_text::{Text, are_different};
use ledger_rows::{Backend, Cfg, Engine, RowList};
use pass_hashers::{Algo, Hasher, are_iterations};
use serde_json::Value;
use std::alloc::{AllocError, Global};

/// As many as Django 4.2 asks for with SHA-256.
const USUAL_ITERATIONS: u32 = 600_000;

/// The algorithms that are installed, the preferred one first.
pub(crate) fn hashers_of(alloc: Global, value: Option<&Value>) -> Result<Vec<Algo>, FieldFault>
    ensures ok { IfOk result (λ installed. AreHashersOf (option_map (λ v. view v.now) value.entry) installed.items) }
    ensures some { IfOk result (λ installed. 1 ≤ length installed.items) }
    ensures form { IsErrOf result FieldFault.Form → (installed : List Algo) → ¬ AreHashersOf (option_map (λ v. view v.now) value.entry) installed }
{
    match value {
        Some(value) => named_hashers(alloc, value),
        None => Ok(usual_hashers(alloc)?),
    }
}

fn usual_hashers(alloc: Global) -> Result<Vec<Algo>, AllocError>
    ensures { IfOk result (λ installed. installed.items ≡ Algo.Pbkdf2Sha256 ∷ []) }
{
    let mut installed = Vec::new(alloc);
    installed.push(Algo::Pbkdf2Sha256)?;
    Ok(installed)
}

fn named_hashers(alloc: Global, value: &Value) -> Result<Vec<Algo>, FieldFault>
    ensures ok { IfOk result (λ installed. AreNamesOf (view value.now) installed.items) }
    ensures some { IfOk result (λ installed. 1 ≤ length installed.items) }
    ensures form { IsErrOf result FieldFault.Form → (installed : List Algo) → ¬ AreNamesOf (view value.now) installed }
{
    let names: Vec<Text> = list_of(alloc, value)?;
    let installed = algos_named(alloc, names.as_slice())?;
    if !names.is_empty() && are_different(names) {
        Ok(installed)
    } else {
        Err(FieldFault::Form)
    }
}

fn algos_named(alloc: Global, names: &[Text]) -> Result<Vec<Algo>, FieldFault>
    ensures ok { IfOk result (λ algos. algos_named names.now ≡ Some algos.items) }
    ensures length { IfOk result (λ algos. length algos.items ≡ length names.now) }
    ensures form { IsErrOf result FieldFault.Form → algos_named names.now ≡ None }
{
    let mut algos = Vec::with_capacity(alloc, names.len())?;
    for name in names {
        match algo_named(name.as_str()) {
            Some(algo) => algos.push(algo)?,
            None => return Err(FieldFault::Form),
        }
    }
    Ok(algos)
}

#[tactic(auto, unfolding(crate::specs::SiteFile::algo_named))]
fn algo_named(name: &str) -> Option<Algo>
    ensures { result ≡ algo_named name.now }
{
    if name == "pbkdf2_sha256" {
        Some(Algo::Pbkdf2Sha256)
    } else if name == "pbkdf2_sha1" {
        Some(Algo::Pbkdf2Sha1)
    } else if name == "md5" {
        Some(Algo::Md5)
    } else {
        None
    }
}

/// The iterations of both PBKDF2 hashers.
#[tactic(auto, unfolding(crate::specs::Fields::number_in))]
pub(crate) fn iterations_of(value: Option<&Value>) -> Result<u32, FieldFault>
    ensures ok { IfOk result (AreIterationsOf (option_map (λ v. view v.now) value.entry)) }
    ensures allowed { IfOk result AreIterations }
    ensures form { IsErrOf result FieldFault.Form → (iterations : ℕ) → ¬ AreIterationsOf (option_map (λ v. view v.now) value.entry) iterations }
{
    match value {
        Some(value) => match value.as_u64() {
            Some(number) => iterations_from(number),
            None => Err(FieldFault::Form),
        },
        None => Ok(USUAL_ITERATIONS),
    }
}

fn iterations_from(number: u64) -> Result<u32, FieldFault>
    ensures ok { IfOk result (λ iterations. (iterations ≡ number) × AreIterations iterations) }
    ensures form { IsErrOf result FieldFault.Form → ¬ AreIterations number }
{
    match u32::try_from(number) {
        Ok(iterations) if are_iterations(iterations) => Ok(iterations),
        _ => Err(FieldFault::Form),
    }
}

/// The configuration of these backends and algorithms.
#[tactic(auto, unfolding(crate::specs::SiteFile::cfg_of))]
pub(crate) fn cfg_of(backends: Vec<Backend>, installed: Vec<Algo>, iterations: u32) -> Cfg
    requires backends { 1 ≤ length backends.items }
    requires some { 1 ≤ length installed.items }
    requires allowed { AreIterations iterations }
    ensures value { result ≡ cfg_of backends.items installed.items iterations }
    ensures form { IsCfg result }
{
    let preferred = hasher_of(installed[0], iterations);
    Cfg {
        engine: Engine::Db,
        backends: RowList::from_vec(backends),
        installed: RowList::from_vec(installed),
        preferred,
    }
}

fn hasher_of(algo: Algo, iterations: u32) -> Hasher
    ensures { result ≡ hasher_of algo iterations }
{
    match algo {
        Algo::Pbkdf2Sha256 => Hasher::Pbkdf2Sha256 { iterations },
        Algo::Pbkdf2Sha1 => Hasher::Pbkdf2Sha1 { iterations },
        Algo::Md5 => Hasher::Md5,
    }
}
