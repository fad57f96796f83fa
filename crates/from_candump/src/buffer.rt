// Bytes at the front of an array.
ghost use Rattle.std.specs.Prelude.{◌≤◌};

#[derive(Drop)]
pub struct Buffer<const N: usize> {
    pub bytes: [u8; N],
    pub len: usize,
    ghost fits: { len ≤ N },
}

impl<const N: usize> Buffer<N> {
    pub fn new() -> Self {
        Buffer {
            bytes: [0u8; N],
            len: 0,
        }
    }

    pub fn as_slice(&self) -> &[u8] {
        &self.bytes[..self.len]
    }

    pub fn is_empty(&self) -> bool {
        self.len == 0
    }

    pub fn room(&self) -> usize {
        N - self.len
    }

    // Bytes behind the others, as far as there is room.
    pub fn push(&mut self, bytes: &[u8]) {
        for byte in bytes {
            if self.len < N {
                self.bytes[self.len] = *byte;
                self.len += 1;
            }
        }
    }

    pub fn clear(&mut self) {
        self.len = 0;
    }
}
