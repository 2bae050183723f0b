ghost use Rattle.std.specs.Prelude.{◌≡◌, ◌<◌, ℕ, List, length};
ghost use Rattle.cache_core.specs.History.{history_limit};
ghost use Rattle.cache_core.specs.declared.entry.Entry.{Entry};

/// A state with a history: what a `TurnLock` keeps.
pub trait History {
    /// What a state is named by.
    type Name;

    ghost budget: { Self → ℕ };

    ghost log: { Self → List Entry };

    ghost name: { Self → Self.Name };

    /// How many entries its history has. They are fewer than the limit of histories.
    fn entries(&self) -> u64
        ensures count { result ≡ length (log self.now) }
        ensures few { length (log self.now) < history_limit };
}
