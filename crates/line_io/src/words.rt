ghost use Rattle.std.specs.Prelude.{◌≡◌, [], ◌∷◌, ◌<◌, ◌≤◌, false, length, take, drop, slice_index, IfSome, OnSome, IfNone};
ghost use Rattle.line_io.specs.Line.{part};
ghost use Rattle.line_io.specs.Places.{inside, ends};
ghost use Rattle.line_io.specs.Words.{is_blank, opened, quoted_on, words_of};

/// Where a byte of a line stands.
#[derive(Clone, Copy)]
enum Place {
    /// Between two fields.
    Gap,
    /// In a field, outside a token.
    Bare,
    /// In a token between quotes of this byte.
    Quoted(u8),
    /// Behind a `\` in such a token.
    Escaped(u8),
}

fn is_blank(byte: u8) -> bool
    ensures { result ≡ is_blank byte }
{
    byte == b' ' || byte == b'\t' || byte == b'\r'
}

fn opened(byte: u8) -> Place
    ensures { result ≡ opened byte }
{
    if byte == b'\'' || byte == b'"' {
        Place::Quoted(byte)
    } else {
        Place::Bare
    }
}

fn quoted_on(quote: u8, byte: u8) -> Place
    ensures { result ≡ quoted_on quote byte }
{
    if byte == b'\\' {
        Place::Escaped(quote)
    } else if byte == quote {
        Place::Bare
    } else {
        Place::Quoted(quote)
    }
}

/// The place behind a byte of a field that does not end it.
fn inside(place: Place, byte: u8) -> Place
    ensures { result ≡ inside place byte }
{
    match place {
        Place::Gap | Place::Bare => Place::Bare,
        Place::Quoted(quote) => quoted_on(quote, byte),
        Place::Escaped(quote) => Place::Quoted(quote),
    }
}

fn ends(place: Place, byte: u8) -> bool
    ensures { result ≡ ends place byte }
{
    match place {
        Place::Gap | Place::Bare => is_blank(byte),
        Place::Quoted(_) | Place::Escaped(_) => false,
    }
}

/// The number of bytes of the field that a text begins with.
fn word_len(text: &[u8]) -> usize
    requires some { 0 < length text.now }
    requires begun { is_blank (slice_index text.now 0) ≡ false }
    ensures word { words_of text.now ≡ take result text.now ∷ words_of (drop result text.now) }
    ensures within { result ≤ length text.now }
{
    let mut place = opened(text[0]);
    for i in 1..text.len() {
        if ends(place, text[i]) {
            return i;
        }
        place = inside(place, text[i]);
    }
    text.len()
}

/// The number of blanks that a text begins with.
fn blanks_len(text: &[u8]) -> usize
    ensures rest { words_of (drop result text.now) ≡ words_of text.now }
    ensures within { result ≤ length text.now }
    ensures begun { result < length text.now → is_blank (slice_index text.now result) ≡ false }
{
    for (i, byte) in text.iter().enumerate() {
        if !is_blank(*byte) {
            return i;
        }
    }
    text.len()
}

/// The next field of a line from a place on, as the places where it begins and ends.
pub(crate) fn next_word(line: &[u8], from: usize) -> Option<(usize, usize)>
    requires { from ≤ length line.now }
    ensures none { IfNone result (words_of (drop from line.now) ≡ []) }
    ensures word { IfSome result (λ w. words_of (drop from line.now) ≡ part line.now w.0 w.1 ∷ words_of (drop w.1 line.now)) }
    ensures within { IfSome result (λ w. (w.0 ≤ w.1) × (w.1 ≤ length line.now)) }
{
    let start = from + blanks_len(&line[from..]);
    if start == line.len() {
        return None;
    }
    let end = start + word_len(&line[start..]);
    Some((start, end))
}
