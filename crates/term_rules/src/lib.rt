// The rules for the points of an input term, of values wherever they stand: one point, the order of positions, the
// number of points.
#![tactic(auto)]

ghost use Rattle.std.specs.Prelude.{◌≡◌};
ghost use Rattle.model.specs.Basic.{between};
ghost use Rattle.model.specs.Bounds.{point_least, point_limit};
ghost use Rattle.model.specs.WellFormed.{point_ok};
ghost use Rattle.term_rules.specs.Positions.{may_stand};

use model::{Crisp, Degree};

// The last two positions so far; where there are fewer, those that are missing are not looked at.
#[derive(Clone, Copy)]
pub struct LastTwo {
    pub earlier: Crisp,
    pub later: Crisp,
}

// A position and its degree.
pub fn point_ok(x: Crisp, d: Degree) -> bool
    ensures { result ≡ point_ok (record { at = x.0; degree = d.0 }) }
{
    crisp::in_bounds(x) && degrees::is_unit(d)
}

// Whether x may stand after n positions, the last two of them given.
pub fn may_stand(n: usize, last: LastTwo, x: Crisp) -> bool
    ensures { result ≡ may_stand n last x.0 }
{
    n == 0 || (last.later <= x && (n == 1 || last.earlier < x))
}

pub fn point_count_ok(n: usize) -> bool
    ensures { result ≡ between point_least point_limit n }
{
    (bounds::LEAST_POINTS..=bounds::POINTS).contains(&n)
}
