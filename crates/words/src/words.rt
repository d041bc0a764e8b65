// The words of a line, one after the other.
ghost use Rattle.std.specs.Prelude.{◌≡◌, ◌==◌, ◌<◌, ◌∷◌, [], IfSome, length, not};
ghost use Rattle.std.specs.Iterator.{YieldsFirstRef, item_count};
ghost use Rattle.std.specs.List.{position};
ghost use Rattle.std.specs.Option.{MatchOption, unwrap_or};
ghost use Rattle.words.specs.Line.{BLANK, place_in, words};

// The first byte of a text that is no blank.
fn first_letter(text: &[u8]) -> Option<usize>
    ensures { result ≡ position (λ b. not (b == BLANK)) text.now }
{
    text.iter().position(|byte| *byte != b' ')
}

// A text's first blank.
fn first_blank(text: &[u8]) -> Option<usize>
    ensures { result ≡ position (λ b. b == BLANK) text.now }
{
    text.iter().position(|byte| *byte == b' ')
}

// A text's first word, and what comes after it.
fn first_word(text: &[u8]) -> Option<(&[u8], &[u8])>
    ensures { MatchOption result (words text.now ≡ []) (λ p. words text.now ≡ p.0.now ∷ words p.1.now) }
{
    let begun = &text[first_letter(text)?..];
    Some(begun.split_at(first_blank(begun).unwrap_or(begun.len())))
}

// The words of a text from its beginning on.
#[derive(Clone, Drop)]
pub struct Words<'a>(pub &'a [u8]);

impl<'a> Iterator for Words<'a> {
    type Item = &'a [u8];

    ghost next_gives = { YieldsFirstRef (λ s. words s.0.now) };

    ghost remaining = { item_count (λ s. words s.0.now) };

    fn next(&mut self) -> Option<&'a [u8]> {
        let (word, rest) = first_word(self.0)?;
        self.0 = rest;
        Some(word)
    }
}

// Which of a text's words this is, counted from 0.
pub fn place_of(text: &[u8], word: &[u8]) -> Option<usize>
    ensures value { unwrap_or result (length (words text.now)) ≡ place_in (words text.now) word.now }
    ensures upper_bound { IfSome result (λ i. i < length (words text.now)) }
{
    Words(text).position(|other| word == other)
}
