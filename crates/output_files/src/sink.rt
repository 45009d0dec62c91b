// What an output is written to.
use std::fs::File;
use std::io::{Error, ErrorKind, Result, Stderr, Stdout, Write};

#[derive(Drop)]
pub enum Sink {
    Output(Stdout),
    Errors(Stderr),
    Opened(File),
}

impl Write for Sink {
    fn write(&mut self, buf: &[u8]) -> Result<usize> {
        match self {
            Sink::Output(to) => to.write(buf),
            Sink::Errors(to) => to.write(buf),
            Sink::Opened(to) => to.write(buf),
        }
    }

    fn flush(&mut self) -> Result<()> {
        Ok(())
    }
}

// Whether an error says that a file cannot be asked whether its bytes have reached it.
fn is_unasked(error: Error) -> bool {
    matches!(
        error.kind(),
        ErrorKind::InvalidInput | ErrorKind::Unsupported
    )
}

// Sees that what was written to a new file has reached it: std closes a file without a word, so what would fail at its close is
// asked for before.
pub(crate) fn settle(to: Sink) -> Result<()> {
    let Sink::Opened(file) = to else {
        return Ok(());
    };
    match file.sync_data() {
        Err(error) if !is_unasked(error) => Err(error),
        _ => Ok(()),
    }
}
