//! The field `backends`.

ghost use Rattle.std.specs.Prelude.{◌≡◌, ◌≢◌, ◌∷◌, ◌≤◌, List, [], None, IfOk, IfSome, IsErrOf, length, option_map};
ghost use Rattle.serde_json.specs.View.{view};
ghost use Rattle.ledger_rows.specs.Backends.{path_of};
ghost use Rattle.ledger_rows.specs.declared.rows.Backend.{Backend};
ghost use Rattle.site_file.specs.SiteFile.{AreBackendsOf, ArePathsOf, paths_of};

use crate::fields::{FieldFault, list_of};
use crypto_text::{Text, are_different};
use ledger_rows::Backend;
use serde_json::Value;
use std::alloc::{AllocError, Global};

/// The backends, in the order in which they are asked.
pub(crate) fn backends_of(alloc: Global, value: Option<&Value>) -> Result<Vec<Backend>, FieldFault>
    ensures ok { IfOk result (λ backends. AreBackendsOf (option_map (λ v. view v.now) value.entry) backends.items) }
    ensures some { IfOk result (λ backends. 1 ≤ length backends.items) }
    ensures form { IsErrOf result FieldFault.Form → (backends : List Backend) → ¬ AreBackendsOf (option_map (λ v. view v.now) value.entry) backends }
{
    match value {
        Some(value) => named_backends(alloc, value),
        None => Ok(usual_backends(alloc)?),
    }
}

fn usual_backends(alloc: Global) -> Result<Vec<Backend>, AllocError>
    ensures { IfOk result (λ backends. backends.items ≡ Backend.Model ∷ []) }
{
    let mut backends = Vec::new(alloc);
    backends.push(Backend::Model)?;
    Ok(backends)
}

fn named_backends(alloc: Global, value: &Value) -> Result<Vec<Backend>, FieldFault>
    ensures ok { IfOk result (λ backends. ArePathsOf (view value.now) backends.items) }
    ensures some { IfOk result (λ backends. 1 ≤ length backends.items) }
    ensures form { IsErrOf result FieldFault.Form → (backends : List Backend) → ¬ ArePathsOf (view value.now) backends }
{
    let paths: Vec<Text> = list_of(alloc, value)?;
    let backends = backends_named(alloc, paths.as_slice())?;
    if !paths.is_empty() && are_different(paths) {
        Ok(backends)
    } else {
        Err(FieldFault::Form)
    }
}

fn backends_named(alloc: Global, paths: &[Text]) -> Result<Vec<Backend>, FieldFault>
    ensures ok { IfOk result (λ backends. paths_of backends.items ≡ paths.now) }
    ensures form { IsErrOf result FieldFault.Form → (backends : List Backend) → paths_of backends ≢ paths.now }
{
    let mut backends = Vec::with_capacity(alloc, paths.len())?;
    for path in paths {
        match backend_named(path.as_str()) {
            Some(backend) => backends.push(backend)?,
            None => return Err(FieldFault::Form),
        }
    }
    Ok(backends)
}

/// The backend of a path.
fn backend_named(path: &str) -> Option<Backend>
    ensures some { IfSome result (λ backend. path_of backend ≡ path.now) }
    ensures none { result ≡ None → (backend : Backend) → path_of backend ≢ path.now }
{
    if path == Backend::Model.path() {
        Some(Backend::Model)
    } else if path == Backend::AllowAll.path() {
        Some(Backend::AllowAll)
    } else {
        None
    }
}
