//! What threads share, and what a turn on it is.

ghost use Rattle.std.specs.Prelude.{◌≡◌, ℕ, ◌<◌, ◌≤◌, List, Bool, true};
ghost use Rattle.turn_lock.specs.Meanings.{Meanings};
ghost use Rattle.turn_lock.specs.Log.{grown};
ghost use Rattle.turn_lock.specs.Count.{Rose};

/// A value that threads change by turns. It may report a log, and it counts its faults.
pub trait Booked: Send {
    /// An entry of its log.
    type Entry;

    // The type of the part that no turn changes.
    ghost fixed_type: { Type 0 };

    // What it means to the lock.
    ghost means: { Meanings Self Self.Entry fixed_type };
}

/// One turn: a change of the book, with a reply.
pub trait Turn<B: Booked> {
    type Reply;

    // The entry that it asks for.
    ghost asks: { Self → B.Entry };

    // How the turn, the book as found, the reply and the book as left belong together.
    ghost changes: { Self → B → Self.Reply → B → Type 0 };

    // Whether the entry was appended.
    ghost grows: { Self.Reply → Bool };

    // Whether the turn counts as failed.
    ghost fails: { Self.Reply → Bool };

    /// Changes the book. No other turn sees it meanwhile.
    fn take(self, book: &mut B) -> Self::Reply
        ensures changes { changes self book.old result book.new }
        ensures fixed { (B.means).fixed book.new ≡ (B.means).fixed book.old }
        ensures sound { (B.means).sound book.old → (B.means).sound book.new }
        ensures reports { (B.means).reports book.new ≡ (B.means).reports book.old }
        ensures log { (B.means).reports book.old ≡ true → (B.means).log book.new ≡ grown (grows result) ((B.means).log book.old) (asks self) }
        ensures faults { (B.means).faults book.old ≤ (B.means).faults book.new }
        ensures failed { fails result ≡ true → Rose ((B.means).faults book.old) ((B.means).faults book.new) };

    /// Whether the entry was appended to the log.
    fn grew(reply: &Self::Reply) -> bool
        ensures { result ≡ grows reply.now };

    /// Whether the turn counts as failed. Then the book's count of faults rose in it.
    fn failed(reply: &Self::Reply) -> bool
        ensures { result ≡ fails reply.now };
}
