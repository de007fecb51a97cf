//! Ids of rows.

ghost use Rattle.std.specs.Prelude.{◌↔◌, IsTrue};
ghost use Rattle.std.specs.List.{All};
ghost use Rattle.std.specs.List.Sorted.{IsStrictlyIncreasing};
ghost use Rattle.ledger_rows.specs.Opening.{AreIdsAmong, AreRowIds, IsId, IsIdAmong};

const GREATEST_ID: u64 = 1 << 32;

/// Whether these are the ids of rows, in rising order.
pub(crate) fn are_row_ids(ids: &[u64]) -> bool
    ensures { IsTrue result ↔ AreRowIds ids.now }
{
    are_ids(ids) && are_rising(ids)
}

/// Whether these are ids of present rows, in rising order. The present rows' ids rise too, so each is found by halves.
pub(crate) fn are_ids_among(present: &[u64], ids: &[u64]) -> bool
    requires { IsStrictlyIncreasing present.now }
    ensures { IsTrue result ↔ AreIdsAmong present.now ids.now }
{
    are_rising(ids) && are_present(present, ids)
}

fn are_ids(ids: &[u64]) -> bool
    ensures { IsTrue result ↔ All IsId ids.now }
{
    ids.iter().all(|&id| is_id(id))
}

fn is_id(id: u64) -> bool
    ensures { IsTrue result ↔ IsId id }
{
    1 <= id && id <= GREATEST_ID
}

fn are_rising(ids: &[u64]) -> bool
    ensures { IsTrue result ↔ IsStrictlyIncreasing ids.now }
{
    for i in 1..ids.len() {
        if ids[i] <= ids[i - 1] {
            return false;
        }
    }
    true
}

fn are_present(present: &[u64], ids: &[u64]) -> bool
    requires { IsStrictlyIncreasing present.now }
    ensures { IsTrue result ↔ All (IsIdAmong present.now) ids.now }
{
    ids.iter().all(|&id| is_present(present, id))
}

fn is_present(present: &[u64], id: u64) -> bool
    requires { IsStrictlyIncreasing present.now }
    ensures { IsTrue result ↔ IsIdAmong present.now id }
{
    present.binary_search(&id).is_ok()
}
