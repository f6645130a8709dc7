// An answer as C gets it.
ghost use Rattle.std.specs.Prelude.{◌≡◌, ◌++◌, drop, if◌then◌else◌, length, nat_lt};
ghost use Rattle.report_api.specs.Answers.{IsPut, answer_of, too_small};

use crate::fault::Fault;
use text_lines::ToWords;

/// The buffer has the report.
const DONE: u32 = 0;

/// The text needs a larger buffer.
const TOO_SMALL: u32 = 4;

/// The buffer has the line of a fault.
const REFUSED: u32 = 5;

/// An allocation was refused.
const NO_MEMORY: u32 = 6;

/// Puts an answer's text into `buffer`, if it has room for it, and its length into `text_length`.
pub fn put(answer: Result<Vec<u8>, Fault>, buffer: &mut [u8], text_length: &mut usize) -> u32
    ensures { IsPut (answer_of answer) buffer.old text_length.old result buffer.new text_length.new }
{
    match answer {
        Ok(text) => put_text(DONE, &text, buffer, text_length),
        Err(Fault::Memory) => NO_MEMORY,
        Err(fault) => {
            let line = fault.to_words().line_after("fault");
            put_text(REFUSED, line.as_slice(), buffer, text_length)
        }
    }
}

fn put_text(status: u32, text: &[u8], buffer: &mut [u8], text_length: &mut usize) -> u32
    ensures counted { text_length.new ≡ length text.now }
    ensures status { result ≡ (if nat_lt (length buffer.old) (length text.now) then too_small else status) }
    ensures written { buffer.new ≡ (if nat_lt (length buffer.old) (length text.now) then buffer.old
        else text.now ++ drop (length text.now) buffer.old) }
{
    *text_length = text.len();
    if text.len() > buffer.len() {
        return TOO_SMALL;
    }
    buffer[..text.len()].copy_from_slice(text);
    status
}
