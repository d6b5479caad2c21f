//! The words of a journal line, and the numbers among them.
ghost use Rattle.std.specs.Prelude.{◌≡◌, ℕ, ◌+◌, Bool, length};
ghost use Rattle.std.specs.Iterator.{ActsAsAt, at_most};
ghost use Rattle.std.specs.List.{position_or_len};
ghost use Rattle.journal.specs.Words.{is_blank, CutAt, before_comment, GivesNextWord, decimal};

fn is_blank(byte: &u8) -> bool
    ensures { result ≡ is_blank byte.now }
{
    *byte == b' ' || *byte == b'\t'
}

/// The text before the first byte that ends it, and the rest.
fn cut<F: FnMut(&u8) -> bool>(text: &[u8], ends: F) -> (&[u8], &[u8])
    requires { F.IsAlwaysCallable ends }
    ensures parts { (p : ℕ → Bool) → ActsAsAt F.FnMut ends p →
        CutAt text.now (position_or_len p text.now) result.0.now result.1.now }
    ensures all { length result.0.now + length result.1.now ≡ length text.now }
{
    let end = text.iter().position(ends).unwrap_or(text.len());
    text.split_at(end)
}

/// What is left of a line: its words are separated by blanks, and `#` begins a comment.
#[derive(Drop)]
pub(crate) struct Words<'a> {
    rest: &'a [u8],
}

impl<'a> Words<'a> {
    pub(crate) fn of(line: &'a [u8]) -> Words<'a>
        ensures { result.rest.now ≡ before_comment line.now }
    {
        let (rest, _comment) = cut(line, |byte| *byte == b'#');
        Words { rest }
    }
}

impl<'a> Iterator for Words<'a> {
    type Item = &'a [u8];

    ghost next_gives = { λ words word after. GivesNextWord words.rest.now word after.rest.now };

    ghost remaining = { λ words. at_most (length words.rest.now) };

    fn next(&mut self) -> Option<&'a [u8]> {
        let (_blanks, text) = cut(self.rest, |byte| !is_blank(byte));
        let (word, rest) = cut(text, is_blank);
        self.rest = rest;
        (!word.is_empty()).then_some(word)
    }
}

/// The whole number below 2^32 that decimal digits write.
pub(crate) fn number(word: &[u8]) -> Option<u32>
    ensures { result ≡ decimal word.now }
{
    if word.is_empty() {
        return None;
    }
    let mut value: u32 = 0;
    for byte in word {
        if !byte.is_ascii_digit() {
            return None;
        }
        value = value.checked_mul(10)?.checked_add(u32::from(*byte - b'0'))?;
    }
    Some(value)
}
