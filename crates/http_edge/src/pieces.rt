//! Reading a source piece by piece.

ghost use Rattle.std.specs.Prelude.{◌≡◌, ◌⊎◌, ◌≤◌, ◌<◌, length, true, false, IfOk, IfErr, OnErr, IsErrOf};
ghost use Rattle.outside.specs.Devices.{HasEnded};
ghost use Rattle.outside.specs.Faults.{Rose};
ghost use Rattle.http_edge.specs.declared.request.EdgeFault.TheVariants.{ReadFault, Memory};
ghost use Rattle.http_edge.specs.Stream.{ReadsOn, FindsHead};

use crate::EdgeFault;
use crate::head_watch::HeadWatch;
use crate::request_head::head_among;
use httparse::spans::{HeaderSpan, RequestSpans};
use outside::{Failed, Source};

/// Reads the next piece of the source and appends it to the bytes, by way of `piece`. `false` says that the
/// source has ended.
#[tactic(auto, using(crate::proofs::Reading::reads_nothing, crate::proofs::Reading::reads_failed, crate::proofs::Reading::reads_piece))]
pub(crate) fn take_piece<S: Source>(
    bytes: &mut Vec<u8>,
    piece: &mut [u8],
    source: &mut S,
) -> Result<bool, EdgeFault>
    requires { 0 < length piece.old }
    ensures reads { ReadsOn bytes.old.items (S.seen source.old) bytes.new.items (S.seen source.new) }
    ensures grows { IfOk result (λ more. more ≡ true → length bytes.old.items < length bytes.new.items) }
    ensures ended { IfOk result (λ more. more ≡ false → (bytes.new.items ≡ bytes.old.items) × HasEnded (S.seen source.new)) }
    ensures err { OnErr result (bytes.new.items ≡ bytes.old.items) }
    ensures faults { IfErr result (λ e. (e ≡ ReadFault) ⊎ (e ≡ Memory)) }
    ensures cause { IsErrOf result ReadFault → Rose (S.seen source.old).faults (S.seen source.new).faults }
{
    bytes.reserve(piece.len())?;
    match source.read(piece) {
        Err(Failed) => Err(EdgeFault::ReadFault),
        Ok(n) => {
            bytes.extend_from_slice(&piece[..n])?;
            Ok(n > 0)
        }
    }
}

/// Reads pieces until a look at the bytes is due, or the source has ended, which is `false`.
#[tactic(auto, using(crate::proofs::Reading::reads_nothing, crate::proofs::Reading::reads_on, crate::proofs::Reading::rose_since))]
fn read_until_due<S: Source>(
    watch: &mut HeadWatch,
    bytes: &mut Vec<u8>,
    piece: &mut [u8],
    source: &mut S,
) -> Result<bool, EdgeFault>
    requires { 0 < length piece.old }
    ensures reads { ReadsOn bytes.old.items (S.seen source.old) bytes.new.items (S.seen source.new) }
    ensures grows { IfOk result (λ more. more ≡ true → length bytes.old.items < length bytes.new.items) }
    ensures ended { IfOk result (λ more. more ≡ false → HasEnded (S.seen source.new)) }
    ensures faults { IfErr result (λ e. (e ≡ ReadFault) ⊎ (e ≡ Memory)) }
    ensures cause { IsErrOf result ReadFault → Rose (S.seen source.old).faults (S.seen source.new).faults }
{
    'pieces: loop {
        if !take_piece(bytes, piece, source)? {
            return Ok(false);
        }
        if watch.is_due(bytes) {
            return Ok(true);
        }
    }
}

/// Reads on until there is a head at the front of the bytes, or there can be none.
#[tactic(auto, using(crate::proofs::Reading::reads_nothing, crate::proofs::Reading::reads_on, crate::proofs::Reading::rose_since))]
pub(crate) fn find_head<S: Source>(
    bytes: &mut Vec<u8>,
    spans: &mut [HeaderSpan],
    piece: &mut [u8],
    source: &mut S,
) -> Result<Option<RequestSpans>, EdgeFault>
    requires room { length spans.old ≡ 5461 }
    requires piece { 0 < length piece.old }
    ensures reads { ReadsOn bytes.old.items (S.seen source.old) bytes.new.items (S.seen source.new) }
    ensures found { FindsHead bytes.new.items spans.new (S.seen source.new) result }
    ensures cause { IsErrOf result ReadFault → Rose (S.seen source.old).faults (S.seen source.new).faults }
{
    let mut watch = HeadWatch::new();
    let mut more = Ok(true);
    'looks: loop {
        if let Some(found) = head_among(bytes, spans)? {
            return Ok(Some(found));
        }
        if !more? {
            if bytes.is_empty() {
                return Ok(None);
            }
            return Err(EdgeFault::CutShort);
        }
        more = read_until_due(&mut watch, bytes, piece, source);
    }
}

/// Reads on until there are so many bytes.
#[tactic(auto, using(crate::proofs::Reading::reads_nothing, crate::proofs::Reading::reads_on, crate::proofs::Reading::rose_since))]
pub(crate) fn fill_to<S: Source>(
    bytes: &mut Vec<u8>,
    total: usize,
    piece: &mut [u8],
    source: &mut S,
) -> Result<bool, EdgeFault>
    requires { 0 < length piece.old }
    ensures reads { ReadsOn bytes.old.items (S.seen source.old) bytes.new.items (S.seen source.new) }
    ensures full { IfOk result (λ full. full ≡ true → total ≤ length bytes.new.items) }
    ensures ended { IfOk result (λ full. full ≡ false → (length bytes.new.items < total) × HasEnded (S.seen source.new)) }
    ensures err { OnErr result (length bytes.new.items < total) }
    ensures faults { IfErr result (λ e. (e ≡ ReadFault) ⊎ (e ≡ Memory)) }
    ensures cause { IsErrOf result ReadFault → Rose (S.seen source.old).faults (S.seen source.new).faults }
{
    while bytes.len() < total {
        if !take_piece(bytes, piece, source)? {
            return Ok(false);
        }
    }
    Ok(true)
}
