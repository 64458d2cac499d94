//! What a crew's work consists of: tasks, how they are taken, done and put back, and what each
//! worker owns.

ghost use Rattle.std.specs.Prelude.{◌≡◌, ◌<◌, ◌+◌, ◌-◌};
ghost use Rattle.work_crew.specs.Takings.{IfTask, IfNoTask};

/// What a worker is given under the lock.
pub enum Taking<T> {
    /// A task, to be done without the lock.
    Task(T),
    /// There is none now, and another worker has one.
    Idle,
    /// There may be one that another worker is about to take; this one asks again soon.
    Later,
    /// There is none any more, or none for this worker.
    Ended,
}

/// What workers do.
///
/// A hand is what one worker owns, or what some own together before they part and after they meet. It has a number
/// of parts, one for each of them.
pub trait Craft {
    ghost use Rattle.std.specs.Prelude.{ℕ};

    /// The value that lies under the lock.
    type Desk: Send;

    /// What workers own.
    type Hand: Send + Drop;

    /// What is taken under the lock.
    type Task;

    /// What came of it.
    type Done;

    /// How many workers a hand is of.
    ghost parts: { Self.Hand → ℕ };

    /// The number of the first of them.
    ghost first: { Self.Hand → ℕ };

    /// That nothing was done yet.
    ghost fresh: { Self → Self.Hand → Type 0 };

    /// What holds of a hand between tasks.
    ghost holds: { Self → Self.Hand → Type 0 };

    /// What holds of a hand and a task that it took.
    ghost took: { Self → Self.Hand → Self.Task → Type 0 };

    /// What holds of a hand and what came of its task.
    ghost did: { Self → Self.Hand → Self.Done → Type 0 };

    /// How many workers the hand is of.
    fn workers(&self, hand: &Self::Hand) -> u32
        ensures { result ≡ parts hand.now };

    /// The number of the first of them.
    fn number(&self, hand: &Self::Hand) -> u32
        ensures { result ≡ first hand.now };

    /// Makes ready for the first task.
    fn begin(&self, hand: &mut Self::Hand)
        requires fresh { fresh self.now hand.old }
        ensures holds { holds self.now hand.new }
        ensures parts { parts hand.new ≡ parts hand.old }
        ensures first { first hand.new ≡ first hand.old };

    /// Whether this worker does nothing more; asked before each task, without the lock.
    fn is_over(&self, hand: &mut Self::Hand) -> bool
        requires holds { holds self.now hand.old }
        ensures holds { holds self.now hand.new }
        ensures parts { parts hand.new ≡ parts hand.old }
        ensures first { first hand.new ≡ first hand.old };

    /// Takes a task, under the lock.
    fn take(&self, desk: &mut Self::Desk, hand: &mut Self::Hand) -> Taking<Self::Task>
        requires holds { holds self.now hand.old }
        ensures took { IfTask result (took self.now hand.new) }
        ensures holds { IfNoTask result (holds self.now hand.new) }
        ensures parts { parts hand.new ≡ parts hand.old }
        ensures first { first hand.new ≡ first hand.old };

    /// Does a task, without the lock.
    fn perform(&self, hand: Self::Hand, task: Self::Task) -> (Self::Hand, Self::Done)
        requires took { took self.now hand task }
        ensures did { did self.now result.0 result.1 }
        ensures parts { parts result.0 ≡ parts hand }
        ensures first { first result.0 ≡ first hand };

    /// Puts back what came of a task, under the lock. False: this worker does nothing more.
    fn put(&self, desk: &mut Self::Desk, hand: &mut Self::Hand, done: Self::Done) -> bool
        requires did { did self.now hand.old done }
        ensures holds { holds self.now hand.new }
        ensures parts { parts hand.new ≡ parts hand.old }
        ensures first { first hand.new ≡ first hand.old };

    /// Hands so many parts to a hand of their own: the last ones.
    fn split(&self, hand: &mut Self::Hand, count: u32) -> Self::Hand
        requires fresh { fresh self.now hand.old }
        requires some_go { 0 < count }
        requires some_stay { count < parts hand.old }
        ensures fresh { fresh self.now hand.new }
        ensures new { fresh self.now result }
        ensures stay { parts hand.new ≡ parts hand.old - count }
        ensures go { parts result ≡ count }
        ensures first { first hand.new ≡ first hand.old }
        ensures next { first result ≡ first hand.new + parts hand.new };

    /// Takes back the hand of the workers that come next.
    fn join(&self, hand: &mut Self::Hand, other: Self::Hand)
        requires holds { holds self.now hand.old }
        requires other { holds self.now other }
        requires next { first other ≡ first hand.old + parts hand.old }
        ensures holds { holds self.now hand.new }
        ensures parts { parts hand.new ≡ parts hand.old + parts other }
        ensures first { first hand.new ≡ first hand.old };
}
