//! A text that is built part by part, and remembers that memory was refused.

use std::alloc::{AllocError, Global};

/// A text of bytes to which nothing that is put fails: only its end has to be asked whether all of it is there.
///
/// ```rust
/// use config_host::text::Text;
///
/// let mut text = Text::new(alloc);
/// text.put(b"a");
/// text.put_repeated(b'b', 2);
/// assert!(rt; text.end().expect(&rt, "memory").as_slice() == b"abb".as_slice());
/// ```
#[derive(Drop)]
pub struct Text {
    bytes: Vec<u8>,
    has_failed: bool,
}

impl Text {
    /// The empty text.
    pub fn new(alloc: Global) -> Text {
        Text {
            bytes: Vec::new(alloc),
            has_failed: false,
        }
    }

    /// Appends a part.
    #[inline]
    pub fn put(&mut self, part: &[u8]) {
        if self.bytes.extend_from_slice(part).is_err() {
            self.has_failed = true;
        }
    }

    /// Appends a byte.
    #[inline]
    pub fn put_byte(&mut self, byte: u8) {
        if self.bytes.push(byte).is_err() {
            self.has_failed = true;
        }
    }

    /// Appends a byte so many times.
    pub fn put_repeated(&mut self, byte: u8, count: usize) {
        for _ in 0..count {
            self.put_byte(byte);
        }
    }

    /// The bytes so far, to which others append. What they answer is for [`Text::heed`].
    #[inline]
    pub fn bytes(&mut self) -> &mut Vec<u8> {
        &mut self.bytes
    }

    /// Remembers that memory was refused for what others appended, if it was.
    #[inline]
    pub fn heed(&mut self, appended: Result<(), AllocError>) {
        if appended.is_err() {
            self.has_failed = true;
        }
    }

    /// What is there so far, or that memory was refused for a part of it.
    pub fn so_far(&self) -> Result<&[u8], AllocError> {
        if self.has_failed {
            return Err(AllocError);
        }
        Ok(self.bytes.as_slice())
    }

    /// How many bytes are there.
    #[inline]
    pub fn len(&self) -> usize {
        self.bytes.len()
    }

    /// Takes all bytes away, but not that memory was refused.
    pub fn clear(&mut self) {
        self.bytes.clear();
    }

    /// The whole text, or that memory was refused for a part of it.
    pub fn end(self) -> Result<Vec<u8>, AllocError> {
        if self.has_failed {
            return Err(AllocError);
        }
        Ok(self.bytes)
    }
}
