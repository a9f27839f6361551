// Refusals: what each type of them has in common.
#![tactic(auto)]

ghost use Rattle.std.specs.Prelude.{◌≡◌, ℕ};

// A refusal has a number, by which a host is told of it.
pub trait Numbered {
    ghost number: { Self → ℕ };

    fn number(self) -> u8
        ensures { result ≡ number self };
}
