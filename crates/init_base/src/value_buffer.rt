//! A buffer for the value of any property.

ghost use Rattle.std.specs.Prelude.{◌≡◌, length};

/// A buffer of 8,191 bytes, which has room for any value under any name.
#[derive(Drop)]
pub struct ValueBuffer {
    bytes: [u8; 8191],
}

impl ValueBuffer {
    pub fn new() -> ValueBuffer {
        ValueBuffer { bytes: [0; 8191] }
    }

    pub fn bytes(&mut self) -> &mut [u8]
        ensures { length result.now ≡ 8191 }
    {
        &mut self.bytes
    }
}
