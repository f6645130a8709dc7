//! A module's memory as pages under keys, and its text.
#![tactic(auto)]

mod entries;
mod family;
mod fault;
mod image;
mod key;
pub mod laws;
mod mapped_page;
mod owned_image;
mod page;
mod page_addressing;
mod page_line;
mod text_version;
mod window;

pub use bus_model::Dev;
pub use family::Family;
pub use fault::ImageFault;
pub use image::Image;
pub use key::{Half, Key};
pub use mapped_page::MappedPage;
pub use owned_image::{LARGE, LargeImage, OwnedImage, SMALL, SmallImage};
pub use page::{PAGE_LEN, Page};
pub use page_addressing::{KnownPage, PageAddressing};
pub use text_version::TextVersion;
pub use window::{Window, WindowFault};
