// How programs show numbers of things and texts.
use crate::Hex;
use std::fmt;

// A number of things, with the word for one of them.
#[derive(Clone, Copy)]
pub struct Counted(pub usize, pub &'static str);

impl fmt::Display for Counted {
    // The number and the word, which has an s where it is not one thing.
    fn fmt<W: fmt::Write>(&self, f: &mut fmt::Formatter<W>) -> fmt::Result {
        let Counted(n, word) = *self;
        write!(f, "{n} {word}")?;
        if n != 1 {
            write!(f, "s")?;
        }
        Ok(())
    }
}

// A text as it is, with its control characters spelt out.
#[derive(Clone, Copy)]
pub struct Shown<'a>(pub &'a [u8]);

impl fmt::Display for Shown<'_> {
    // The characters, or the bytes where they are no text.
    fn fmt<W: fmt::Write>(&self, f: &mut fmt::Formatter<W>) -> fmt::Result {
        let Ok(text) = std::str::from_utf8(self.0) else {
            return write!(f, "{}", Hex(self.0));
        };
        // a control character stands after each run but the last
        let mut controls = text.chars().filter(|c| c.is_control());
        for run in text.split(|c: char| c.is_control()) {
            f.write_str(run)?;
            if let Some(c) = controls.next() {
                write!(f, "{}", c.escape_unicode())?;
            }
        }
        Ok(())
    }
}
