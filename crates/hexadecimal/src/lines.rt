// A text taken apart into lines.
ghost use Rattle.std.specs.Prelude.{◌≡◌, ◌<◌, ◌==◌, length};
ghost use Rattle.std.specs.List.{before_first, after_first};
ghost use Rattle.std.specs.Iterator.{YieldsFirstRef, item_count};
ghost use Rattle.hexadecimal.specs.Lines.{lines};

// The first line, without its line feed, and what follows it.
#[tactic(auto, using(crate::proofs::LineLists::cutting))]
pub fn cut_line(text: &[u8]) -> (&[u8], &[u8])
    ensures line { result.0.now ≡ before_first (λ b. b == 10) text.now }
    ensures rest { result.1.now ≡ after_first (λ b. b == 10) text.now }
    ensures shorter { 0 < length text.now → length result.1.now < length text.now }
{
    match text.iter().position(|b| *b == b'\n') {
        Some(i) => (&text[..i], &text[i + 1..]),
        None => (text, &[]),
    }
}

// The lines of a text, one after another.
#[derive(Drop)]
pub struct Lines<'a>(pub &'a [u8]);

impl<'a> Iterator for Lines<'a> {
    type Item = &'a [u8];

    ghost next_gives = { YieldsFirstRef (λ text. lines text.0.now) };

    ghost remaining = { item_count (λ text. lines text.0.now) };

    // The first line that is left.
    #[tactic(auto, using(crate::proofs::LineLists::lines_first))]
    fn next(&mut self) -> Option<&'a [u8]> {
        if self.0.is_empty() {
            return None;
        }
        let (line, rest) = cut_line(self.0);
        self.0 = rest;
        Some(line)
    }
}

#[cfg(test)]
mod tests {
    use super::*;

    // A text with an empty line in it, and with no line feed at its end.
    #[test]
    fn takes_lines(rt: HostRuntime) {
        let mut lines = Lines(b"ab\n\nc");
        assert_eq!(rt; lines.next(), Some(b"ab".as_slice()));
        assert_eq!(rt; lines.next(), Some(b"".as_slice()));
        assert_eq!(rt; lines.next(), Some(b"c".as_slice()));
        assert_eq!(rt; lines.next(), None);
    }
}
