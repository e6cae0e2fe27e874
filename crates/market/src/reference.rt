// What a member calls its order by.
ghost use Rattle.std.specs.Prelude.{◌≡◌, ℕ, ◌==◌};
ghost use Rattle.std.proofs.Common.{rules};

// References are told apart by a number; 0 is no reference, as members send it. A host's own type needs no `==` for it.
pub trait Reference: Copy {
    ghost number: { Self → ℕ };

    fn same(&self, other: &Self) -> bool
        ensures { result ≡ (number self.now == number other.now) };

    fn is_zero(&self) -> bool
        ensures { result ≡ (number self.now == 0) };

    // references of one number are one reference
    ghost told: { (x y : Self) → number x ≡ number y → x ≡ y };
}

impl Reference for u32 {
    ghost number = { λ n. n };

    ghost told = { Prim.search rules };

    fn same(&self, other: &u32) -> bool {
        *self == *other
    }

    fn is_zero(&self) -> bool {
        *self == 0
    }
}
