// A metadata file as it is put together.
ghost use Rattle.std.specs.Prelude.{◌≤◌};

const ROOM: usize = 8192;

// The bytes so far.
#[derive(Clone, Copy)]
pub(crate) struct Room {
    bytes: [u8; ROOM],
    len: usize,
    ghost inside: { len ≤ 8192 },
}

impl Room {
    pub(crate) fn new() -> Room {
        Room {
            bytes: [0; ROOM],
            len: 0,
        }
    }

    // Puts bytes after those that are there, if there is room for them.
    pub(crate) fn add(&mut self, t: &[u8]) {
        if t.len() <= ROOM - self.len {
            let end = self.len + t.len();
            self.bytes[self.len..end].copy_from_slice(t);
            self.len = end;
        }
    }

    pub(crate) fn bytes(&self) -> &[u8] {
        &self.bytes[..self.len]
    }
}
