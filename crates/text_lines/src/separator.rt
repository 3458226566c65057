ghost use Rattle.std.specs.Prelude.{◌≡◌, ◌<◌, ◌+◌, true, drop, length, IfSome};
ghost use Rattle.std.specs.Option.{option_map};
ghost use Rattle.text_lines.specs.Parts.{ends_line, is_separator, parts_of, separator_from};

// The line between a cluster file and what stands behind it.
const SEPARATOR: &[u8] = b"=====";

/// What stands before the first line `=====` of a text, and what behind it (this project); None exactly where there is no such line.
pub fn parts_of(text: &[u8]) -> Option<(&[u8], &[u8])>
    ensures { option_map (λ parts. (parts.0.now, parts.1.now)) result ≡ parts_of text.now }
{
    let place = separator_in(text)?;
    Some((&text[..place], behind(text, place)))
}

// What stands behind the line `=====` that begins at that place.
fn behind(text: &[u8], place: usize) -> &[u8]
    requires { place < length text.now }
    ensures { result.now ≡ drop (place + 6) text.now }
{
    let line = SEPARATOR.len() + 1;
    if line < text.len() - place {
        &text[place + line..]
    } else {
        &[]
    }
}

// The place where the first line `=====` begins; None where there is no such line.
fn separator_in(text: &[u8]) -> Option<usize>
    ensures place { result ≡ separator_from 0 true text.now }
    ensures within { IfSome result (λ place. place < length text.now) }
{
    let mut starts = true;
    for (place, byte) in text.iter().enumerate() {
        if starts && is_separator(&text[place..]) {
            return Some(place);
        }
        starts = *byte == b'\n';
    }
    None
}

// Whether a text begins with the line `=====`.
fn is_separator(text: &[u8]) -> bool
    ensures { result ≡ is_separator text.now }
{
    text.starts_with(SEPARATOR) && ends_line(&text[SEPARATOR.len()..])
}

// Whether a line ends where that text begins.
fn ends_line(rest: &[u8]) -> bool
    ensures { result ≡ ends_line rest.now }
{
    match rest {
        [] => true,
        [first, ..] => *first == b'\n',
    }
}
