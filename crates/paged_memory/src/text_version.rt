//! Which of the two texts of an image it is.
ghost use Rattle.std.specs.Prelude.{◌≡◌};
ghost use Rattle.paged_memory.specs.TextVersions as spec;

use crate::fault::ImageFault;
use crate::owned_image::{LARGE, SMALL};

/// The version of an image's text, which its first line gives.
#[derive(Clone, Copy, Debug, PartialEq, Eq, Drop)]
pub enum TextVersion {
    /// `module-image 1`, of at most 16 pages.
    One,
    /// `module-image 2`, of at most 64 pages.
    Two,
}

impl TextVersion {
    /// The first line.
    #[tactic(auto, unfolding(crate::specs::TextVersions::header))]
    pub fn header(self) -> &'static str
        ensures { result.now ≡ spec.header self }
    {
        match self {
            TextVersion::One => "module-image 1",
            TextVersion::Two => "module-image 2",
        }
    }

    /// How many pages it has at most.
    pub fn most_pages(self) -> usize
        ensures { result ≡ spec.most_in self }
    {
        match self {
            TextVersion::One => SMALL,
            TextVersion::Two => LARGE,
        }
    }

    /// What is wrong with one page more.
    pub fn full(self) -> ImageFault
        ensures { result ≡ spec.full self }
    {
        match self {
            TextVersion::One => ImageFault::TooManyPages,
            TextVersion::Two => ImageFault::SixtyFifthPage,
        }
    }

    /// The version in which an image of so many pages is written: the first that has room for them.
    pub fn for_pages(count: usize) -> TextVersion
        ensures { result ≡ spec.version_for count }
    {
        if count <= SMALL {
            TextVersion::One
        } else {
            TextVersion::Two
        }
    }
}
