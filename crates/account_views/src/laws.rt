//! What holds of every request's script.

ghost use Rattle.account_views.specs.Laws.{BoxRule, KeysAreDrawn, LoadIsFirst, StepsAreFew, StepsAreProper};

/// The first step that a request asks for is a load with its session cookie.
pub fn load_is_first()
    ensures { LoadIsFirst }
{}

/// A request has at most 21 steps.
pub fn steps_are_few()
    ensures { StepsAreFew }
{}

/// Each step that a request asks for may be done and is no start of the program, and each response has a status that
/// `response_text` takes.
pub fn steps_are_proper()
    ensures { StepsAreProper }
{}

/// New session keys are made of the request's own random words.
pub fn keys_are_drawn()
    ensures { KeysAreDrawn }
{}

/// A login that a request writes was loaded in it, or its hash was given out in it for its user.
pub fn box_rule()
    ensures { BoxRule }
{}
