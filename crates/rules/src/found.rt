// Where something stands on a list.
ghost use Rattle.std.specs.Prelude.{◌≡◌};
ghost use Rattle.std.specs.List.{position};

// The first place where x stands.
pub fn place_of<T: PartialEq>(list: &[T], x: &T) -> Option<usize>
    ensures { result ≡ position (λ y. T.eq y x.now) list.now }
{
    list.iter().position(|y| y == x)
}
