//! The lines of input.

/// What the steps do.
#[derive(Clone, Copy, Debug, PartialEq, Eq)]
pub(crate) enum Kind {
    Load,
    Create,
    Save,
    Delete,
}

/// What a line asks for: steps over a number of sessions.
#[derive(Clone, Copy, Debug, PartialEq, Eq)]
pub(crate) struct Work {
    pub kind: Kind,
    pub sessions: u32,
    pub steps: u32,
}

impl Work {
    /// The work that creates the sessions.
    pub(crate) fn before(self) -> Work {
        Work {
            kind: Kind::Create,
            sessions: 0,
            steps: self.sessions,
        }
    }

    /// The number of the session that a step is about. The sessions are gone through in a scattered order, each once
    /// before the first comes again, unless the prime 7919 divides their number.
    pub(crate) fn session_at(self, step: u32) -> u64 {
        let sessions = u64::from(self.sessions);
        let step = u64::from(step);
        match self.kind {
            Kind::Create => sessions + step,
            Kind::Load | Kind::Save | Kind::Delete => step * 7919 % sessions.max(1),
        }
    }
}

/// The work of a line, if it has the form.
pub(crate) fn work_of(line: &str) -> Option<Work> {
    let (kind, numbers) = line.split_once(' ')?;
    let (sessions, steps) = numbers.split_once(' ')?;
    Some(Work {
        kind: kind_of(kind)?,
        sessions: sessions.parse().ok()?,
        steps: steps.parse().ok()?,
    })
}

fn kind_of(word: &str) -> Option<Kind> {
    match word {
        "load" => Some(Kind::Load),
        "create" => Some(Kind::Create),
        "save" => Some(Kind::Save),
        "delete" => Some(Kind::Delete),
        _ => None,
    }
}
