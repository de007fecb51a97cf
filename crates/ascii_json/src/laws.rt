//! Laws about the definitions of this crate. A law is a function that does nothing: its clause is
//! the law, so the check of the crate proves it.

ghost use Rattle.ascii_json.specs.Laws.{TextTellsValue, WrittenIsPrintable, WrittenReadsBack};

/// What `json_ascii` writes, `json_read` reads as the same value.
pub fn written_reads_back()
    ensures { WrittenReadsBack }
{}

/// Bytes are the text of one value at most.
pub fn text_tells_value()
    ensures { TextTellsValue }
{}

/// What `json_ascii` writes has no byte outside `0x20` to `0x7e`.
pub fn written_is_printable()
    ensures { WrittenIsPrintable }
{}
