// The points of a term in a stored image.
#![tactic(auto)]

ghost use Rattle.std.specs.Prelude.{◌≡◌, [], ◌+◌, ◌≤◌};
ghost use Rattle.model.specs.Basic.{tab};
ghost use Rattle.model.specs.Image.{word_at, point_at};
ghost use Rattle.term_points.specs.Points.{points_after};

use header::Stored;
use model::Crisp;
use term_rules::LastTwo;

// The k points from s on, and the order of their positions.
pub fn points_ok(image: &Stored, s: usize, k: usize) -> bool
    requires { s + k ≤ image.now.header.points.rows }
    ensures { result ≡ points_after [] (tab (point_at (word_at image.now.bytes.now)) k s) }
{
    let none = Crisp(0);
    let mut last = LastTwo {
        earlier: none,
        later: none,
    };
    for i in 0..k {
        let p = stored_points::point_at(image, s + i);
        if !term_rules::point_ok(p.at, p.degree) || !term_rules::may_stand(i, last, p.at) {
            return false;
        }
        last = LastTwo {
            earlier: last.later,
            later: p.at,
        };
    }
    true
}
