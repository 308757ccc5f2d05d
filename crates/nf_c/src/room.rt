ghost use Rattle.std.specs.Prelude.{◌≡◌, ◌≤◌, true, false, [], length, take};

use nf_filter::{Failed, Sink};

/// The caller's output as a sink. It fails where it is full.
#[derive(Drop)]
pub struct Room<'o> {
    bytes: &'o mut [u8],
    /// How many bytes at its front were written.
    written: usize,
    failed: bool,
    ghost within: { written ≤ length bytes.now },
    ghost full: { failed ≡ true → written ≡ length bytes.now },
}

impl<'o> Room<'o> {
    ghost use Rattle.nf_c.specs.Room.{state_of};

    pub fn over(bytes: &'o mut [u8]) -> Room<'o>
        ensures lent { result.bytes.ghost_name ≡ bytes.entry.ghost_name }
        ensures bytes { result.bytes.now ≡ bytes.old }
        ensures state { state_of result ≡ record { taken = Some []; is_failed = false; lender = bytes.entry.ghost_name } }
    {
        Room {
            bytes,
            written: 0,
            failed: false,
        }
    }

    pub fn written(&self) -> usize
        ensures taken { (state_of self.now).taken ≡ Some (take result self.now.bytes.now) }
        ensures within { result ≤ length self.now.bytes.now }
    {
        self.written
    }
}

impl Sink for Room<'_> {
    ghost use Rattle.nf_c.specs.Room.{state_of};

    ghost state = { state_of };

    fn put(&mut self, bytes: &[u8]) -> Result<usize, Failed> {
        if bytes.is_empty() {
            return Ok(0);
        }
        let left = self.bytes.len() - self.written;
        if self.failed || left == 0 {
            self.failed = true;
            return Err(Failed);
        }
        let len = left.min(bytes.len());
        self.bytes[self.written..self.written + len].copy_from_slice(&bytes[..len]);
        self.written += len;
        Ok(len)
    }
}
