// The points of a stored image: where each stands, its degree, and both.
#![tactic(auto)]

ghost use Rattle.std.specs.Prelude.{◌≡◌, ◌<◌};
ghost use Rattle.model.specs.Image.{word_at, point_at};
ghost use Rattle.terms.specs.Points.{point_view};

use header::Stored;
use model::{Crisp, Degree, Point};

#[tactic(auto, unfolding(model::specs::Image::point_at))]
pub fn place_at(image: &Stored, i: usize) -> Crisp
    requires { i < image.now.header.points.rows }
    ensures { result.0 ≡ (point_at (word_at image.now.bytes.now) i).at }
{
    image.crisp(image.header.points.row(i))
}

#[tactic(auto, unfolding(model::specs::Image::point_at))]
pub fn degree_at(image: &Stored, i: usize) -> Degree
    requires { i < image.now.header.points.rows }
    ensures { result.0 ≡ (point_at (word_at image.now.bytes.now) i).degree }
{
    let row = image.header.points.row(i);
    Degree(image.word(row + header::POINT_DEGREE) as u32)
}

pub fn point_at(image: &Stored, i: usize) -> Point
    requires { i < image.now.header.points.rows }
    ensures { point_view result ≡ point_at (word_at image.now.bytes.now) i }
{
    Point {
        at: place_at(image, i),
        degree: degree_at(image, i),
    }
}
