// What the entries of a listing are told apart by.
ghost use Rattle.std.specs.Prelude.{◌≡◌, Bool};

// What can be told apart by a test. The test has a name of its own, beside `==`, since definitions use it too: of entries
// with messages in place of their numbers, which no code compares.
pub trait Same {
    ghost same: { Self → Self → Bool };

    fn is_same(&self, other: &Self) -> bool
        ensures { result ≡ same self.now other.now };
}
