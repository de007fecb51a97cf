//! Laws about the definitions of this crate. A law is a function that does nothing: its clause is the law, so the check
//! of the crate proves it.

ghost use Rattle.site_server.specs.Laws.{PageNamesTheAdmitted, StartIsUnused, WrittenIsOne};

use http_edge::framing_is_one;
use ledger_rows::laws::load_admits_exactly;

/// What is written on a connection that is closed follows from its settings, its bytes and its exchanges.
pub fn written_is_one()
    ensures { WrittenIsOne }
{
    framing_is_one();
}

/// The page of `/whoami/` names a user exactly where the request's load, which stands in the audit list, admits a user of
/// that name.
pub fn page_names_the_admitted()
    ensures { PageNamesTheAdmitted }
{
    load_admits_exactly();
}

/// Worker 1 of a start has entered nothing, so that its requests may be numbered from 1.
pub fn start_is_unused()
    ensures { StartIsUnused }
{}
