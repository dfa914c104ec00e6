//! Whether rules say the same.
ghost use Rattle.std.specs.Prelude.{◌≡◌, map};
ghost use Rattle.std.specs.Bool.{OnTrue};
ghost use Rattle.chr_base.specs.Sameness.{parts_of};

use chr_base::rule::Rule;

/// Whether both lists have the same rules in the same order. What is at rest under the one is then at rest under
/// the other.
pub(crate) fn are_same(left: &[Rule], right: &[Rule]) -> bool
    ensures { OnTrue result (map parts_of left.now ≡ map parts_of right.now) }
{
    let [first, left @ ..] = left else {
        return right.is_empty();
    };
    let [second, right @ ..] = right else {
        return false;
    };
    first.is_same(second) && are_same(left, right)
}
