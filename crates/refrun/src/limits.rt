//! How long an input may be.
ghost use Rattle.std.specs.Prelude.{◌≡◌};
ghost use Rattle.refrun.specs.Inputs.{most_of};

use ref_workload::streams::MOST_INPUT;

/// How many bytes an input may have with `--large`: 4 GiB.
pub const MOST_LARGE: usize = 4_294_967_296;

/// How many bytes an input may have.
pub fn most_of(is_large: bool) -> usize
    ensures { result ≡ most_of is_large }
{
    if is_large { MOST_LARGE } else { MOST_INPUT }
}
