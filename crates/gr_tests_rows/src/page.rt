//! Pages: what a driver prints, with no error to look at behind each word.

use std::alloc::{AllocError, Global};
use std::fmt::Display;

/// What is printed below a row. Where memory is refused the page is torn: it takes nothing more, and its text is lost.
#[derive(Drop)]
pub struct Page {
    text: String,
    is_torn: bool,
}

impl Page {
    /// An empty page.
    pub fn new(alloc: Global) -> Page {
        Page {
            text: String::new(alloc),
            is_torn: false,
        }
    }

    /// Where its memory comes from.
    pub fn allocator(&self) -> Global {
        *self.text.allocator()
    }

    /// Takes nothing more, since memory was refused for what was to be printed.
    pub fn tear(&mut self) {
        self.is_torn = true;
    }

    /// Prints a letter.
    pub fn push(&mut self, letter: char) {
        if !self.is_torn {
            self.is_torn = self.text.push(letter).is_err();
        }
    }

    /// Prints a text.
    pub fn push_str(&mut self, text: &str) {
        if !self.is_torn {
            self.is_torn = self.text.push_str(text).is_err();
        }
    }

    /// Prints what `write!` asks for.
    pub fn write_fmt<D: Display + Drop>(&mut self, value: D) {
        if !self.is_torn {
            self.is_torn = self.text.write_fmt(value).is_err();
        }
    }

    /// Prints a number.
    pub fn push_number(&mut self, number: u64) {
        write!(self, "{number}");
    }

    /// Prints a place or a count.
    pub fn push_count(&mut self, count: usize) {
        write!(self, "{count}");
    }

    /// Prints a truth value.
    pub fn push_truth(&mut self, truth: bool) {
        self.push_str(if truth { "true" } else { "false" });
    }

    /// Prints a line with a text, indented.
    pub fn line(&mut self, text: &str) {
        self.push_str("  ");
        self.push_str(text);
        self.push('\n');
    }

    /// Prints a line with a number, indented.
    pub fn number_line(&mut self, number: u64) {
        write!(self, "  {number}\n");
    }

    /// Prints a line with a place or a count, indented.
    pub fn count_line(&mut self, count: usize) {
        write!(self, "  {count}\n");
    }

    /// Prints a line with a truth value, indented.
    pub fn truth_line(&mut self, truth: bool) {
        self.line(if truth { "true" } else { "false" });
    }

    /// Prints bytes in hexadecimal.
    pub fn push_hex(&mut self, bytes: &[u8]) {
        for byte in bytes {
            write!(self, "{byte:02x}");
        }
    }

    /// Prints a text as a row has it, with escapes.
    pub fn push_escaped(&mut self, bytes: &[u8]) {
        for byte in bytes {
            match *byte {
                b'\n' => self.push_str("\\n"),
                b'\\' => self.push_str("\\\\"),
                b' '..=b'~' => self.push(char::from(*byte)),
                _ => write!(self, "\\x{byte:02x}"),
            }
        }
    }

    /// Prints a text of lines, each indented; behind the last one, where no line feed ends it, the words `(not ended)`.
    pub fn push_lines(&mut self, text: &[u8]) {
        let mut begun = false;
        for byte in text {
            if !begun {
                self.push_str("  ");
            }
            begun = *byte != b'\n';
            if begun {
                self.push_escaped(&[*byte]);
            } else {
                self.push('\n');
            }
        }
        if begun {
            self.push_str(" (not ended)\n");
        }
    }

    /// Prints a text that was made, or takes nothing more where no memory was given for it.
    pub fn push_made(&mut self, text: Result<String, AllocError>) {
        match text {
            Ok(text) => self.push_str(text.as_str()),
            Err(_) => self.tear(),
        }
    }

    /// All that was printed, if no memory was refused.
    pub fn finish(self) -> Result<String, AllocError> {
        if self.is_torn {
            return Err(AllocError);
        }
        Ok(self.text)
    }
}
