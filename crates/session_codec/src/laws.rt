//! Laws about the definitions of this crate. A law is a function that does nothing: its clause is
//! the law, so the check of the crate proves it.

ghost use Rattle.session_codec.specs.Laws.{AuthMembersTell, DecodedExpires, DecodedIsCorrupt, DecodedIsEncoded, EncodedDecodes, OthersStay, PayloadIsRead, PayloadReadsBack, PayloadTellsMap, StoredDecodes, TakenAwayIsGone, TextTellsMap, UserIdIsDecimal};

/// `decode` gives a map exactly where the text encodes it and isn't too old.
pub fn decoded_is_encoded()
    ensures { DecodedIsEncoded }
{}

/// A text has expired exactly where something was signed for its kind, too long ago.
pub fn decoded_expires()
    ensures { DecodedExpires }
{}

/// A text is corrupt exactly where it encodes no map that is young enough, and hasn't expired.
pub fn decoded_is_corrupt()
    ensures { DecodedIsCorrupt }
{}

/// What `encode` writes, `decode` reads as the same map while the first key of that time is listed
/// and the age allowed.
pub fn encoded_decodes()
    ensures { EncodedDecodes }
{}

/// What `encode` writes for a store, `decode` reads as the same map while the first key of that time
/// is listed.
pub fn stored_decodes()
    ensures { StoredDecodes }
{}

/// A text that is read twice, under other keys or at another moment, is read as one map.
pub fn text_tells_map()
    ensures { TextTellsMap }
{}

/// `from_payload` gives a map exactly where the text is JSON of its object.
pub fn payload_is_read()
    ensures { PayloadIsRead }
{}

/// What `payload` writes, `from_payload` reads as the same map.
pub fn payload_reads_back()
    ensures { PayloadReadsBack }
{}

/// A text is the payload of one map at most.
pub fn payload_tells_map()
    ensures { PayloadTellsMap }
{}

/// A user's id is written as its decimal digits and nothing else.
pub fn user_id_is_decimal()
    ensures { UserIdIsDecimal }
{}

/// The login of the map that `SessionMap::of_auth` makes is the one that it was made of.
pub fn auth_members_tell()
    ensures { AuthMembersTell }
{}

/// A name that was removed isn't there any more.
pub fn taken_away_is_gone()
    ensures { TakenAwayIsGone }
{}

/// Removing a name changes no other one.
pub fn others_stay()
    ensures { OthersStay }
{}
