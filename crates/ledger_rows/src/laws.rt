//! Laws about the definitions of this crate. A law is a function that does nothing: its clause is
//! the law, so the check of the crate proves it.
//!
//! Laws over every predicate are lemmas, since no clause can say them: `holds_from` and `holds_at`
//! (what each entry keeps holds at each later index) in `proofs/HistoryLemmas.antt`, and in
//! `proofs/TableLemmas.antt` what holds of all rows of a table after a step, one lemma a table.

ghost use Rattle.ledger_rows.specs.Laws.{LegalHistoryGrows, LoadAdmitsExactly, NamesStayDifferent, OpeningIsLegal, OpeningRowsAreSound, OwnEntriesGrow, PrefixStays, StateAtNext, WorkerEntriesGrow};

/// A history begins as a legal one.
pub fn opening_is_legal()
    ensures { OpeningIsLegal }
{}

/// A legal history grows by one operation at a time.
pub fn legal_history_grows()
    ensures { LegalHistoryGrows }
{}

/// An entry leads from the state at its index to the next.
pub fn state_at_next()
    ensures { StateAtNext }
{}

/// What was said of an index stays true, whatever is appended.
pub fn prefix_stays()
    ensures { PrefixStays }
{}

/// An entry that is appended joins those of its own request, and leaves those of every other as they were.
pub fn own_entries_grow()
    ensures { OwnEntriesGrow }
{}

/// An entry that is appended joins those of its own worker, and leaves those of every other as they were.
pub fn worker_entries_grow()
    ensures { WorkerEntriesGrow }
{}

/// Whom a load admits, in the words of Django's documentation on sessions.
pub fn load_admits_exactly()
    ensures { LoadAdmitsExactly }
{}

/// A new store holds sound rows alone.
pub fn opening_rows_are_sound()
    ensures { OpeningRowsAreSound }
{}

/// Two users have never one name.
pub fn names_stay_different()
    ensures { NamesStayDifferent }
{}
