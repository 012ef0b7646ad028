// Memory of a fixed size, of which the calls are lent a part from its start on.
ghost use Rattle.std.specs.Prelude.{◌≡◌, ◌≤◌, ◌<◌, ℕ, take, min, slice_index};

#[derive(Clone, Copy)]
pub struct Memory<const N: usize> {
    pub bytes: [u8; N],
    pub lent: usize,
    ghost inside: { lent ≤ N },
}

impl<const N: usize> Memory<N> {
    // Zeros, of which nothing is lent.
    pub fn new() -> Self
        ensures { result.lent ≡ 0 }
    {
        Memory {
            bytes: [0; N],
            lent: 0,
        }
    }

    // The part that is lent.
    pub fn lent(&self) -> &[u8]
        ensures { result.now ≡ take self.now.lent self.now.bytes }
    {
        &self.bytes[..self.lent]
    }

    pub fn lent_mut(&mut self) -> &mut [u8]
        ensures { result.now ≡ take self.old.lent self.old.bytes }
    {
        let n = self.lent;
        // An array of N elements is lent whole before a part of it is.
        let bytes = &mut self.bytes;
        let bytes = &mut bytes[..];
        &mut bytes[..n]
    }

    // So many bytes from the start on, at most all, whether they are lent or not.
    pub fn front(&self, n: usize) -> &[u8]
        ensures { result.now ≡ take n self.now.bytes }
    {
        &self.bytes[..n.min(N)]
    }

    // Lends so many bytes, at most all; those beyond the ones that were lent are zeros.
    pub fn resize(&mut self, n: usize)
        ensures lent { self.new.lent ≡ min n N }
        ensures kept { take self.old.lent self.new.bytes ≡ take self.old.lent self.old.bytes }
        ensures zeros { (k : ℕ) → self.old.lent ≤ k → k < self.new.lent → slice_index self.new.bytes k ≡ 0 }
    {
        let old = self.lent;
        let new = n.min(N);
        if old < new {
            let bytes = &mut self.bytes[..];
            bytes[old..new].fill(0);
        }
        self.lent = new;
    }
}
