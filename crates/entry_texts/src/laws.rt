//! Laws about the definitions of this crate. A law is a function that does nothing: its clause is
//! the law, so the check of the crate proves it.

ghost use Rattle.entry_texts.specs.Laws.{TextTellsEntry, WrittenEntryReadsBack};

/// What `entry_text` writes is the text of that entry to the definition of reading too.
pub fn written_entry_reads_back()
    ensures { WrittenEntryReadsBack }
{}

/// A text is that of one entry at most, so an audit list is known by its lines.
pub fn text_tells_entry()
    ensures { TextTellsEntry }
{}
