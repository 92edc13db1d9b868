//! The number of matches that may still be replaced, or None for all.

ghost use Rattle.std.specs.Prelude.{◌≡◌};
ghost use Rattle.bites_bytes.specs.ReplaceLimit.{Spends, bound};

/// Returns how many matches a limit of replacements allows. A limit of 0 allows all, which is `None`.
pub fn bound(limit: usize) -> Option<usize>
    ensures { result ≡ bound limit }
{
    if limit == 0 { None } else { Some(limit) }
}

/// Takes one from what is left, and returns whether anything was left.
pub fn spend(left: &mut Option<usize>) -> bool
    ensures { Spends left.old result left.new }
{
    match *left {
        None => true,
        Some(0) => false,
        Some(number) => {
            *left = Some(number - 1);
            true
        }
    }
}
