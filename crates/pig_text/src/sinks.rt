ghost use Rattle.std.specs.Prelude.{ℕ, List, [], ◌++◌};

/// Something that takes bytes, one piece after another.
pub trait TextSink {
    /// What it may have become once it has taken these bytes.
    ghost after: { Self → List ℕ → Self → Type 0 };

    /// Takes bytes.
    fn put(&mut self, bytes: &[u8])
        ensures { after self.old bytes.now self.new };

    ghost nothing: { (a : Self) → after a [] a };

    ghost onwards: { (a b c : Self) (xs ys : List ℕ) → after a xs b → after b ys c → after a (xs ++ ys) c };
}
