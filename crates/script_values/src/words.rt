//! Lines, and the words of a line.

ghost use Rattle.std.specs.Prelude.{◌≡◌, ◌<◌, ◌∷◌, length, option_map, IfSome};
ghost use Rattle.script_values.specs.Words.{cut_of, lines_of, pieces, parts, seen, next, one, two, three, four, five};

/// The first line without its line feed, and the text behind it.
pub fn cut_line(text: &[u8]) -> (&[u8], &[u8])
    requires { 0 < length text.now }
    ensures lines { lines_of text.now ≡ result.0.now ∷ lines_of result.1.now }
    ensures shorter { length result.1.now < length text.now }
{
    for (i, byte) in text.iter().enumerate() {
        if *byte == b'\n' {
            return (&text[..i], &text[i + 1..]);
        }
    }
    (text, &[])
}

/// The text before the first separator, and the text behind it where there is one.
pub fn cut(text: &str, separator: char) -> (&str, Option<&str>)
    requires { separator < 128 }
    ensures cut { (result.0.now, seen result.1) ≡ cut_of separator text.now }
    ensures parts { parts separator text.now ≡ result.0.now ∷ pieces separator (seen result.1) }
    ensures shorter { IfSome result.1 (λ rest. length rest.now < length text.now) }
{
    match text.split_once(separator) {
        Some((first, rest)) => (first, Some(rest)),
        None => (text, None),
    }
}

/// The first word of a line, perhaps empty.
pub fn first_word(line: &[u8]) -> &[u8]
    ensures { result.now ≡ (cut_of 32 line.now).0 }
{
    for (i, byte) in line.iter().enumerate() {
        if *byte == b' ' {
            return &line[..i];
        }
    }
    line
}

/// The next word, which isn't empty, and what is left behind it.
pub fn next<'a>(rest: Option<&'a str>) -> Option<(&'a str, Option<&'a str>)>
    ensures { option_map (λ cut. (cut.0.now, seen cut.1)) result ≡ next (seen rest.entry) }
{
    let (word, rest) = cut(rest?, ' ');
    if word.is_empty() {
        None
    } else {
        Some((word, rest))
    }
}

/// The one word that is left.
pub fn one<'a>(rest: Option<&'a str>) -> Option<&'a str>
    ensures { seen result ≡ one (seen rest.entry) }
{
    match next(rest)? {
        (word, None) => Some(word),
        (_, Some(_)) => None,
    }
}

/// The two words that are left.
pub fn two<'a>(rest: Option<&'a str>) -> Option<(&'a str, &'a str)>
    ensures { option_map (λ words. (words.0.now, words.1.now)) result ≡ two (seen rest.entry) }
{
    let (first, rest) = next(rest)?;
    let second = one(rest)?;
    Some((first, second))
}

/// The three words that are left.
pub fn three<'a>(rest: Option<&'a str>) -> Option<(&'a str, &'a str, &'a str)>
    ensures { option_map (λ words. (words.0.now, words.1.now, words.2.now)) result
        ≡ three (seen rest.entry) }
{
    let (first, rest) = next(rest)?;
    let (second, third) = two(rest)?;
    Some((first, second, third))
}

/// The four words that are left.
pub fn four<'a>(rest: Option<&'a str>) -> Option<(&'a str, &'a str, &'a str, &'a str)>
    ensures { option_map (λ words. (words.0.now, words.1.now, words.2.now, words.3.now)) result
        ≡ four (seen rest.entry) }
{
    let (first, rest) = next(rest)?;
    let (second, third, fourth) = three(rest)?;
    Some((first, second, third, fourth))
}

/// The five words that are left.
pub fn five<'a>(rest: Option<&'a str>) -> Option<(&'a str, &'a str, &'a str, &'a str, &'a str)>
    ensures { option_map
        (λ words. (words.0.now, words.1.now, words.2.now, words.3.now, words.4.now)) result
        ≡ five (seen rest.entry) }
{
    let (first, rest) = next(rest)?;
    let (second, third, fourth, fifth) = four(rest)?;
    Some((first, second, third, fourth, fifth))
}
