use text_lines::{PrintedWords, ToWords};
use thiserror::Error;

/// Why a text is no image, or a page finds no room. Lines count from 1.
#[derive(Clone, Copy, Debug, PartialEq, Eq, Drop, Error)]
#[error("the text is no image")]
pub enum ImageFault {
    /// The text begins with the first line of no version, `module-image 1` or `module-image 2`.
    BadHeader,
    /// The line is neither a page line nor `end`.
    BadLine(usize),
    /// The key of the line isn't above the one before it.
    OutOfOrder(usize),
    /// It would be the seventeenth page of an image that has room for sixteen.
    TooManyPages,
    /// The text ends without `end`.
    NoEnd,
    /// A line stands after `end`.
    AfterEnd,
    /// It would be the sixty-fifth page.
    SixtyFifthPage,
}

impl ToWords for ImageFault {
    ghost use Rattle.paged_memory.specs.FaultWords.{image_fault_words};

    ghost words = { image_fault_words };

    ghost most = { 2 };

    fn to_words(&self) -> PrintedWords {
        match self {
            ImageFault::BadHeader => PrintedWords::of("IM1"),
            ImageFault::BadLine(line) => PrintedWords::of("IM2").and(line),
            ImageFault::OutOfOrder(line) => PrintedWords::of("IM3").and(line),
            ImageFault::TooManyPages => PrintedWords::of("IM4"),
            ImageFault::NoEnd => PrintedWords::of("IM5"),
            ImageFault::AfterEnd => PrintedWords::of("IM6"),
            ImageFault::SixtyFifthPage => PrintedWords::of("IM7"),
        }
    }
}
