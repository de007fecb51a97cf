//! What holds of every command's script.

ghost use Rattle.site_commands.specs.Laws.{StepsAreFew, StepsAreProper, TasksAreProper};

/// A command has at most two steps, but for `outbox`.
pub fn steps_are_few()
    ensures { StepsAreFew }
{}

/// Each step that a command asks for may be done, and is none of a request's session.
pub fn steps_are_proper()
    ensures { StepsAreProper }
{}

/// The task of a command that isn't refused has well-formed texts and numbers.
pub fn tasks_are_proper()
    ensures { TasksAreProper }
{}
