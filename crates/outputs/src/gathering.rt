// A writer that gathers bytes, up to 65,536 of them, before it writes them.
ghost use Rattle.std.specs.Prelude.{◌≤◌};

use std::io::{Result, Write};

#[derive(Drop)]
struct Held {
    bytes: [u8; 65536],
    length: usize,
    ghost inside: { length ≤ 65536 },
}

impl Held {
    // Puts `w` behind what is held, where it has room; whether it has.
    fn put(&mut self, w: &[u8]) -> bool {
        if w.len() > self.bytes.len() - self.length {
            return false;
        }
        let end = self.length + w.len();
        self.bytes[self.length..end].copy_from_slice(w);
        self.length = end;
        true
    }

    fn as_slice(&self) -> &[u8] {
        &self.bytes[..self.length]
    }

    fn clear(&mut self) {
        self.length = 0;
    }
}

#[derive(Drop)]
pub struct Gathering<'a, W> {
    to: &'a mut W,
    held: Held,
}

impl<'a, W: Write> Gathering<'a, W> {
    pub fn new(to: &'a mut W) -> Gathering<'a, W> {
        Gathering {
            to,
            held: Held {
                bytes: [0; 65536],
                length: 0,
            },
        }
    }

    // Gathers `w` behind what is held, which is written before it where it has no room.
    pub fn bytes(&mut self, w: &[u8]) -> Result<()> {
        if self.held.put(w) {
            return Ok(());
        }
        self.write_held()?;
        if self.held.put(w) {
            return Ok(());
        }
        self.to.write_all(w)
    }

    pub fn number(&mut self, x: usize) -> Result<()> {
        let mut digits = [0u8; 20];
        let n = io::decimal(x as u64, &mut digits);
        self.bytes(&digits[..n])
    }

    // A number and a space.
    pub fn field(&mut self, x: usize) -> Result<()> {
        self.number(x)?;
        self.bytes(b" ")
    }

    // Writes what is held.
    pub fn write_held(&mut self) -> Result<()> {
        self.to.write_all(self.held.as_slice())?;
        self.held.clear();
        Ok(())
    }
}
