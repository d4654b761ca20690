// What is kept of the replies that are read.
ghost use Rattle.figures.specs.Totals.{Small, Totalled};

// How many replies there are and how many of them are yes; of these the sum of the S lines and the
// sum of their squares.
#[derive(Clone, Copy)]
pub struct Totals {
    pub files: usize,
    pub accepted: usize,
    pub sum: usize,
    pub squares: usize,
    ghost small: { Small files accepted sum squares },
    ghost of_some: { ∥ Totalled files accepted sum squares ∥₁ },
}
