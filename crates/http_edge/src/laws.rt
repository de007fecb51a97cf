//! Laws of what the bytes of a stream begin with.

ghost use Rattle.http_edge.specs.Laws.{FramingIsOne, RequestStands, RefusalStands};

/// A stream has one next request or one refusal.
pub fn framing_is_one()
    ensures { FramingIsOne }
{}

/// More bytes change neither a request nor a refusal, unless the bytes were cut short. So the pieces in which they
/// come don't matter.
pub fn framing_stands()
    ensures request { RequestStands }
    ensures refusal { RefusalStands }
{}
