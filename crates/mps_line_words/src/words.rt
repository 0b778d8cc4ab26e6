// The words of a line, one after another. A line is read from the left: what is left of it is a slice that gets shorter.
ghost use Rattle.std.specs.Prelude.{◌≡◌, ◌≤◌, ◌∷◌, [], true, false, length, Some, None, MatchOption};
ghost use Rattle.std.specs.Str.{bytes_eq};
ghost use Rattle.mps_line_words.specs.Word.{words, word_at, after_spaces, after_word, is_none_left, only_word};

/// The most bytes of a line of a script, without its line feed.
pub const MAX_LINE_BYTES: usize = 4096;

/// What stands after the spaces at the beginning.
#[inline(always)]
pub fn after_spaces(bytes: &[u8]) -> &[u8]
    ensures { result.now ≡ after_spaces bytes.now }
{
    let mut rest = bytes;
    while let [b' ', later @ ..] = rest {
        rest = later;
    }
    rest
}

/// What stands after the word at the beginning: all from the first space on.
#[inline(always)]
pub fn after_word(bytes: &[u8]) -> &[u8]
    ensures rest { result.now ≡ after_word bytes.now }
    ensures at_most { length result.now ≤ length bytes.now }
{
    let mut rest = bytes;
    while let [first, later @ ..] = rest {
        if *first == b' ' {
            return rest;
        }
        rest = later;
    }
    rest
}

/// Whether there are spaces alone.
#[inline(always)]
pub fn is_blank(bytes: &[u8]) -> bool
    ensures { result ≡ is_none_left (words bytes.now) }
{
    after_spaces(bytes).is_empty()
}

/// The first word, and what stands after it; none if there are spaces alone.
#[inline(always)]
pub fn next_word(bytes: &[u8]) -> Option<(&[u8], &[u8])>
    ensures { MatchOption result (words bytes.now ≡ []) (λ p. words bytes.now ≡ p.0.now ∷ words p.1.now) }
{
    let line = after_spaces(bytes);
    if line.is_empty() {
        return None;
    }
    let rest = after_word(line);
    Some((&line[..line.len() - rest.len()], rest))
}

/// The one word, if there is one and no other.
#[inline(always)]
pub fn only_word(bytes: &[u8]) -> Option<&[u8]>
    ensures { MatchOption result (only_word (words bytes.now) ≡ None) (λ word. only_word (words bytes.now) ≡ Some word.now) }
{
    let (word, rest) = next_word(bytes)?;
    if is_blank(rest) { Some(word) } else { None }
}

/// The word is this text. It is compared byte by byte, as such a text is short.
#[inline(always)]
pub fn is_word(word: &[u8], text: &[u8]) -> bool
    ensures { result ≡ bytes_eq word.now text.now }
{
    if word.len() != text.len() {
        return false;
    }
    for index in 0..text.len() {
        if word[index] != text[index] {
            return false;
        }
    }
    true
}

/// What stands after the word at the beginning, if that is this text, which has no space.
#[inline(always)]
pub fn strip_word<'a>(line: &'a [u8], text: &[u8]) -> Option<&'a [u8]>
    requires { word_at text.now ≡ text.now }
    ensures { MatchOption result (bytes_eq (word_at line.now) text.now ≡ false)
        (λ rest. (bytes_eq (word_at line.now) text.now ≡ true) × (rest.now ≡ after_word line.now)) }
{
    if line.len() < text.len() {
        return None;
    }
    for index in 0..text.len() {
        if line[index] != text[index] {
            return None;
        }
    }
    let rest = &line[text.len()..];
    match rest {
        [] | [b' ', ..] => Some(rest),
        _ => None,
    }
}
