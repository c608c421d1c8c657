// The centre of gravity of up to seven singletons: positions weighed by their heights.
#![tactic(auto)]

ghost use Rattle.std.specs.Prelude.{◌≡◌, List, [], ◌∷◌, ◌++◌, ℕ, ◌+◌, ◌*◌, ◌≤◌, ◌<◌, ℤ, pos, length, get_or, MatchOption};
ghost use Rattle.model.specs.Bounds.{M, term_limit};
ghost use Rattle.crisp.specs.Crisp.{InCrisp};
ghost use Rattle.centre.specs.Centre.{SumsOf, figure_of};

use model::{Crisp, Degree};

// Of some singletons the sum of their heights, and their moment about the lowest crisp value.
#[derive(Clone, Copy)]
pub struct Sums {
    pub heights: u64,
    pub moment: u64,
    pub ghost few: { heights ≤ term_limit * M },
    pub ghost within: { moment ≤ 2000000000 * heights },
}

impl Sums {
    // Of no singleton.
    pub fn none() -> Sums
        ensures { SumsOf result.heights result.moment [] [] }
    {
        Sums {
            heights: 0,
            moment: 0,
        }
    }

    // With one singleton more, of height h at p.
    pub fn added(self, p: Crisp, h: Degree) -> Sums
        requires { InCrisp p.0 × (h.0 ≤ M) × (self.heights + M ≤ term_limit * M) }
        ensures sums_of { (ps : List ℤ) (hs : List ℕ) → SumsOf self.heights self.moment ps hs
            → SumsOf result.heights result.moment (ps ++ (p.0 ∷ [])) (hs ++ (h.0 ∷ [])) }
        ensures small { result.heights ≤ self.heights + M }
    {
        let w = u64::from(h.0);
        let a = u64::from(crisp::lift(p));
        Sums {
            heights: self.heights + w,
            moment: self.moment + a * w,
        }
    }

    // The figure, where a height is above 0.
    pub fn centre(self) -> Option<Crisp>
        ensures { MatchOption result (self.heights ≡ 0) (λ x. (0 < self.heights) × InCrisp x.0 × ((ps : List ℤ) (hs : List ℕ) → SumsOf self.heights self.moment ps hs
            → ((k : ℕ) → k < length ps → InCrisp (get_or ps k (pos 0))) → x.0 ≡ figure_of ps hs)) }
    {
        if self.heights == 0 {
            return None;
        }
        // Most figures lie within 500 of 0, and so at most a million thousandths above -500.
        let q = nearest::nearest_above(self.moment, self.heights, 999_500_000);
        Some(crisp::lower(q as u32))
    }
}
