ghost use Rattle.std.specs.Prelude.{◌≡◌, ◌<◌, ◌∷◌, length};
ghost use Rattle.unix_calls.specs.Output.{lines_of};

/// The first line of the text, without its byte 10, and what stands behind it.
#[tactic(auto, using(crate::proofs::LineLaws::same_lines))]
pub(crate) fn first_line(text: &[u8]) -> (&[u8], &[u8])
    requires { 0 < length text.now }
    ensures lines { lines_of text.now ≡ result.0.now ∷ lines_of result.1.now }
    ensures shorter { length result.1.now < length text.now }
{
    text_lines::first_line(text)
}
