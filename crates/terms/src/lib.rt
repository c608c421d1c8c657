// The degree on the straight line between two points of a term.
#![tactic(auto)]

ghost use Rattle.std.specs.Prelude.{◌≡◌, ◌≤◌, ◌≤ℤ◌, ◌<ℤ◌};
ghost use Rattle.model.specs.Bounds.{M};
ghost use Rattle.model.specs.Degrees.{on_line};
ghost use Rattle.crisp.specs.Crisp.{InCrisp};
ghost use Rattle.terms.specs.Points.{PointOk, point_view};

use model::{Crisp, Degree, Point};

// At x, between the points p and q.
pub fn on_line(x: Crisp, p: Point, q: Point) -> Degree
    requires in_crisp { InCrisp x.0 × PointOk p × PointOk q }
    requires at_le_x { (p.at.0 ≤ℤ x.0) × (x.0 <ℤ q.at.0) }
    ensures { (result.0 ≡ on_line x.0 (point_view p) (point_view q)) × (result.0 ≤ M) }
{
    let a1 = crisp::lift(p.at) as u64;
    let a = crisp::lift(x) as u64;
    let a2 = crisp::lift(q.at) as u64;
    let d1 = p.degree.0 as u64;
    let d2 = q.degree.0 as u64;
    let n = d1 * (a2 - a) + d2 * (a - a1);
    let r = nearest::nearest_quotient(n, a2 - a1) as u32;
    Degree(r)
}
