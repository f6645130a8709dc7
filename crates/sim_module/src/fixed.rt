use applications::Advert;
use paged_memory::LargeImage;

/// What never changes of a module.
#[derive(Debug, Drop)]
pub struct Fixed {
    /// What its memory held at the start.
    pub(crate) image: LargeImage,
    /// The Applications of that image.
    pub(crate) advert: Advert,
}
