ghost use Rattle.std.specs.Prelude.{◌<◌, ◌≤◌, length};

/// Where in a frame the bytes end that came so far: in its four length bytes, in its body, or between two frames.
///
/// It reads lengths alone (docs/FORMATS.md): what the bytes are is for `read_frame`.
#[derive(Clone, Copy)]
pub(crate) struct FramePlace {
    /// The length bytes that came, as a number with the most significant first.
    length: u32,
    /// How many these are, fewer than four.
    length_bytes: u8,
    /// How many bytes of the body are still to come.
    body_left: u32,
}

impl FramePlace {
    /// Between two frames.
    pub(crate) fn new() -> FramePlace {
        FramePlace {
            length: 0,
            length_bytes: 0,
            body_left: 0,
        }
    }

    /// Whether no frame has begun that isn't whole.
    pub(crate) fn is_between(&self) -> bool {
        self.length_bytes == 0 && self.body_left == 0
    }

    /// More bytes came. Whether a frame begins among them.
    pub(crate) fn pass(&mut self, bytes: &[u8]) -> bool {
        let mut begins = false;
        let mut at = 0;
        'pieces: while at < bytes.len() {
            begins = begins || self.is_between();
            at += self.pass_piece(&bytes[at..]);
        }
        begins
    }

    /// Passes the next length byte, or what there is of the body, and answers how many bytes these are.
    fn pass_piece(&mut self, bytes: &[u8]) -> usize
        requires { 0 < length bytes.now }
        ensures some { 0 < result }
        ensures within { result ≤ length bytes.now }
    {
        if self.body_left == 0 {
            self.pass_length_byte(bytes[0]);
            return 1;
        }
        let count = bytes.len().min(self.body_left as usize);
        self.body_left -= count as u32;
        count
    }

    fn pass_length_byte(&mut self, byte: u8) {
        let length = (self.length << 8) | u32::from(byte);
        *self = if self.length_bytes < 3 {
            FramePlace {
                length,
                length_bytes: self.length_bytes + 1,
                body_left: 0,
            }
        } else {
            FramePlace {
                length: 0,
                length_bytes: 0,
                body_left: length,
            }
        };
    }
}
