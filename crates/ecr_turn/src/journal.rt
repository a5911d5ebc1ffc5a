// What a state behind a turnstile has to tell.
ghost use Rattle.std.specs.Prelude.{◌≡◌, List, length};
ghost use Rattle.ecr_model.specs.declared.registry.journal.Line.{Line};
ghost use Rattle.ecr_model.specs.declared.registry.journal.Frame.{Frame};

/// A state with a journal.
pub trait Journal {
    // All its entries, the first one first.
    ghost lines: { Self → List Line };
    // What is fixed throughout the journal.
    ghost frame: { Self → Frame };

    /// The number of its entries.
    fn entries(&self) -> u64
        ensures count { result ≡ length (lines self.now) };
}
