// The texts of an input, by what they are the texts of.
ghost use Rattle.std.specs.Prelude.{◌≡◌, map};
ghost use Rattle.std.specs.List.{position};
ghost use Rattle.command_line.specs.Inputs.{inputs_in, inputs_of, is_part, text_in};

use crate::choice::part::Part;

/// The texts of an input's parts; a part that it does not have is empty.
#[derive(Clone, Copy)]
pub struct Inputs<'a> {
    pub image: &'a [u8],
    pub weights: &'a [u8],
    pub kept: &'a [u8],
    pub certificate: &'a [u8],
    pub script: &'a [u8],
}

impl<'a> Inputs<'a> {
    /// Those of an input that was cut into these texts, by what each is the text of.
    pub fn of(parts: &[Part], texts: &[&'a [u8]]) -> Inputs<'a>
        ensures { inputs_of result ≡ inputs_in parts.now (map (λ text. text.now) texts.now) }
    {
        Inputs {
            image: text_of(parts, texts, Part::Image),
            weights: text_of(parts, texts, Part::Weights),
            kept: text_of(parts, texts, Part::Kept),
            certificate: text_of(parts, texts, Part::Certificate),
            script: text_of(parts, texts, Part::Script),
        }
    }
}

// The text of this part, empty if the input has no such part.
fn text_of<'a>(parts: &[Part], texts: &[&'a [u8]], part: Part) -> &'a [u8]
    ensures { result.now ≡ text_in parts.now (map (λ text. text.now) texts.now) part }
{
    match place_of(parts, part) {
        Some(place) if place < texts.len() => texts[place],
        _ => &[],
    }
}

fn place_of(parts: &[Part], part: Part) -> Option<usize>
    ensures { result ≡ position (λ other. is_part other part) parts.now }
{
    parts.iter().position(|other| *other == part)
}
