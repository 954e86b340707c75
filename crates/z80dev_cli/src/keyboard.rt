//! Standard input, which may be a terminal.

use std::io::{self, Error, ErrorKind, IsTerminal, Read, Stdin};

/// Standard input. A read of a terminal that was closed meanwhile fails. The system says of such a terminal only that nothing has come, which
/// a program at the keyboard takes for no key; it would run on for nobody.
#[derive(Drop)]
pub(crate) struct Keyboard {
    stdin: Stdin,
    /// Whether it was a terminal when the program started.
    is_terminal: bool,
}

impl Keyboard {
    pub(crate) fn new(stdin: Stdin) -> Keyboard {
        let is_terminal = stdin.is_terminal();
        Keyboard { stdin, is_terminal }
    }
}

impl Read for Keyboard {
    fn read(&mut self, buffer: &mut [u8]) -> io::Result<usize> {
        let count = self.stdin.read(buffer)?;
        if count == 0 && self.is_terminal && !self.stdin.is_terminal() {
            return Err(Error::from(ErrorKind::BrokenPipe));
        }
        Ok(count)
    }
}
