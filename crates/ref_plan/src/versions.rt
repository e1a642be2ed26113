//! The versions of workloads.
ghost use Rattle.std.specs.Prelude.{◌≡◌, IfNone, IfSome};
ghost use Rattle.ref_value.specs.Edn.{int};
ghost use Rattle.ref_plan.specs.Workload.{version_form};

use ref_calls::Version;

/// The version of this number, if there is one.
pub fn version_numbered(n: i64) -> Option<Version>
    ensures some { IfSome result (λ version. version_form version ≡ int n) }
    ensures none { IfNone result ((version : Version) → version_form version ≡ int n → ⊥) }
{
    match n {
        1 => Some(Version::One),
        2 => Some(Version::Two),
        _ => None,
    }
}
