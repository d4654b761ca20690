// Arrays in which a search keeps what it knows. Nothing is promised of what a search finds, so that
// an index or a number that is too large may be cut, and needs no proof.
#![tactic(auto)]

ghost use Rattle.std.specs.Prelude.{◌≡◌, ◌<◌, ◌%◌, ◌^◌, replicate, slice_index, slice_set};

// An index is cut to N, and a number to 16 bits.
#[derive(Drop)]
pub struct Cells<const N: usize> {
    pub cells: [u16; N],
    ghost some: { 0 < N },
}

impl<const N: usize> Cells<N> {
    pub fn zeros() -> Self
        requires { 0 < N }
        ensures { result.cells ≡ replicate N 0 }
    {
        Cells { cells: [0; N] }
    }

    pub fn get(&self, x: usize) -> usize
        ensures fits { result < 2 ^ 16 }
        ensures cell { result ≡ slice_index self.now.cells (x % N) }
    {
        usize::from(self.cells[x % N])
    }

    pub fn put(&mut self, x: usize, value: usize)
        ensures { self.new.cells ≡ slice_set self.old.cells (x % N) (value % 2 ^ 16) }
    {
        self.cells[x % N] = (value % 65536) as u16;
    }
}
