// The operators on degrees, the three pairs for AND and OR, and the accumulation of heights.
#![tactic(auto)]

ghost use Rattle.std.specs.Prelude.{◌≡◌, ◌≤◌, ◌<◌, min, max, length, get_or, set, replicate};
ghost use Rattle.model.specs.Bounds.{M};
ghost use Rattle.model.specs.Block.{and, or};
ghost use Rattle.model.specs.Degrees.{not_of, prod_of, asum_of, bdif_of, bsum_of, pairs};
ghost use Rattle.model.specs.Evaluation.{accumulated};
ghost use Rattle.model.specs.WellFormed.{unit_ok};
ghost use Rattle.degrees.specs.Tables.{numbers, Low};

use model::{Accumulation, Degree, Pair};

// The degree 1, in millionths, and as a divisor.
const ONE: u32 = bounds::M as u32;

const MILLION: u64 = bounds::M as u64;

pub fn not(a: Degree) -> Degree
    requires { a.0 ≤ M }
    ensures { (result.0 ≡ not_of a.0) × (result.0 ≤ M) }
{
    Degree(ONE - a.0)
}

pub fn min(a: Degree, b: Degree) -> Degree
    requires { (a.0 ≤ M) × (b.0 ≤ M) }
    ensures { (result.0 ≡ min a.0 b.0) × (result.0 ≤ M) }
{
    a.min(b)
}

pub fn max(a: Degree, b: Degree) -> Degree
    requires { (a.0 ≤ M) × (b.0 ≤ M) }
    ensures { (result.0 ≡ max a.0 b.0) × (result.0 ≤ M) }
{
    a.max(b)
}

// Most weights are 1, and so are many degrees.
pub fn prod(a: Degree, b: Degree) -> Degree
    requires { (a.0 ≤ M) × (b.0 ≤ M) }
    ensures { (result.0 ≡ prod_of a.0 b.0) × (result.0 ≤ M) }
{
    if b.0 == ONE {
        return a;
    }
    if a.0 == ONE {
        return b;
    }
    let product = u64::from(a.0) * u64::from(b.0);
    Degree(nearest::nearest_quotient(product, MILLION) as u32)
}

pub fn asum(a: Degree, b: Degree) -> Degree
    requires { (a.0 ≤ M) × (b.0 ≤ M) }
    ensures { (result.0 ≡ asum_of a.0 b.0) × (result.0 ≤ M) }
{
    Degree(a.0 + b.0 - prod(a, b).0)
}

pub fn bdif(a: Degree, b: Degree) -> Degree
    requires { (a.0 ≤ M) × (b.0 ≤ M) }
    ensures { (result.0 ≡ bdif_of a.0 b.0) × (result.0 ≤ M) }
{
    Degree((a.0 + b.0).saturating_sub(ONE))
}

pub fn bsum(a: Degree, b: Degree) -> Degree
    requires { (a.0 ≤ M) × (b.0 ≤ M) }
    ensures { (result.0 ≡ bsum_of a.0 b.0) × (result.0 ≤ M) }
{
    Degree((a.0 + b.0).min(ONE))
}

// AND by the pair.
pub fn and(p: Pair, a: Degree, b: Degree) -> Degree
    requires { (a.0 ≤ M) × (b.0 ≤ M) }
    ensures { (result.0 ≡ pairs p and a.0 b.0) × (result.0 ≤ M) }
{
    match p {
        Pair::MinMax => min(a, b),
        Pair::ProdAsum => prod(a, b),
        Pair::BdifBsum => bdif(a, b),
    }
}

// OR by the pair.
pub fn or(p: Pair, a: Degree, b: Degree) -> Degree
    requires { (a.0 ≤ M) × (b.0 ≤ M) }
    ensures { (result.0 ≡ pairs p or a.0 b.0) × (result.0 ≤ M) }
{
    match p {
        Pair::MinMax => max(a, b),
        Pair::ProdAsum => asum(a, b),
        Pair::BdifBsum => bsum(a, b),
    }
}

// The height h of a term after a rule gave it the degree d.
pub fn accumulate(k: Accumulation, h: Degree, d: Degree) -> Degree
    requires { (h.0 ≤ M) × (d.0 ≤ M) }
    ensures { (result.0 ≡ accumulated k h.0 d.0) × (result.0 ≤ M) }
{
    match k {
        Accumulation::Max => max(h, d),
        Accumulation::Bsum => bsum(h, d),
    }
}

// A degree or a weight that a text can give: 0 to 1, in whole thousandths.
pub fn is_unit(d: Degree) -> bool
    ensures { result ≡ unit_ok d.0 }
{
    d.0 <= ONE && d.0 % 1000 == 0
}

// So many degrees, each at most 1.
#[derive(Clone, Copy)]
pub struct Degrees<const N: usize> {
    pub at: [Degree; N],
    pub ghost long: { length at ≡ N },
    pub ghost low: { Low (numbers at) },
}

impl<const N: usize> Degrees<N> {
    pub fn zeros() -> Degrees<N>
        ensures { numbers result.at ≡ replicate N 0 }
    {
        Degrees { at: [Degree(0); N] }
    }

    pub fn get(&self, i: usize) -> Degree
        requires { i < N }
        ensures { (result.0 ≡ get_or (numbers self.now.at) i 0) × (result.0 ≤ M) }
    {
        self.at[i]
    }

    pub fn set(&mut self, i: usize, d: Degree)
        requires { (i < N) × (d.0 ≤ M) }
        ensures { numbers self.new.at ≡ set (numbers self.old.at) i d.0 }
    {
        self.at[i] = d;
    }
}
