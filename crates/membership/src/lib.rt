// A number among others.
#![tactic(auto)]

ghost use Rattle.std.specs.Prelude.{◌≡◌, eqb};
ghost use Rattle.lists.specs.Folds.{any};

// Whether a number is one of those.
pub fn among(numbers: &[u16], number: u16) -> bool
    ensures { result ≡ any (eqb number) numbers.now }
{
    numbers.contains(&number)
}
