use bus_model::Dev;
use paged_memory::{ImageFault, Key, LargeImage, Page, SmallImage};
use sample_modules::{QSFP_DD, QSFP28, SFP};
use std::alloc::Global;
use std::test::Fail;

const ZEROS: &str = "module-image 1\nlower A0 \
    0000000000000000000000000000000000000000000000000000000000000000\
    0000000000000000000000000000000000000000000000000000000000000000\
    0000000000000000000000000000000000000000000000000000000000000000\
    0000000000000000000000000000000000000000000000000000000000000000\nend\n";

// An image with the pages 0 to `count` of bank 0.
fn image_of(count: u8) -> Result<LargeImage, Fail> {
    let mut image = LargeImage::new();
    for page in 0..count {
        image.put(Key::upper(Dev::A0, 0, page), Page::from([page; 128]))?;
    }
    Ok(image)
}

// The first text has room for 16 pages, and the second for 64.
#[test]
fn an_image_is_written_in_the_first_text_that_has_room(rt: HostRuntime) -> Result<(), Fail> {
    for (count, header) in [
        (16, "module-image 1\n"),
        (17, "module-image 2\n"),
        (64, "module-image 2\n"),
    ] {
        let written = image_of(count)?.view().write(rt.alloc())?;
        assert!(rt; written.as_slice().starts_with(header.as_bytes()));
        let lines = written.as_slice().split(|byte| *byte == b'\n').count();
        assert_eq!(rt; lines, usize::from(count) + 3);
        let again = LargeImage::read(written.as_slice())?;
        assert_eq!(rt;
            again.view().write(rt.alloc())?.as_slice(),
            written.as_slice()
        );
    }
    Ok(())
}

#[test]
fn no_image_has_more_pages_than_it_has_room_for(rt: HostRuntime) -> Result<(), Fail> {
    let mut image = image_of(64)?;
    let one_more = image.put(Key::lower(Dev::A0), Page::from([0; 128]));
    assert_eq!(rt; one_more.err(), Some(ImageFault::TooManyPages));
    assert!(rt; SmallImage::of(&image_of(16)?.view()).is_ok());
    let small = SmallImage::of(&image_of(17)?.view());
    assert_eq!(rt; small.err(), Some(ImageFault::TooManyPages));
    Ok(())
}

// A text of the other version with the same page lines.
fn in_version(
    alloc: Global,
    count: u8,
    header: &str,
) -> Result<Result<LargeImage, ImageFault>, Fail> {
    let written = image_of(count)?.view().write(alloc)?;
    let mut text = String::from_str(alloc, header)?.into_bytes();
    for byte in written.as_slice().iter().skip(header.len()) {
        text.push(*byte)?;
    }
    Ok(LargeImage::read(text.as_slice()))
}

#[test]
fn each_version_has_its_own_room(rt: HostRuntime) -> Result<(), Fail> {
    assert!(rt; in_version(rt.alloc(), 16, "module-image 2")?.is_ok());
    let seventeenth = in_version(rt.alloc(), 17, "module-image 1")?;
    assert_eq!(rt; seventeenth.err(), Some(ImageFault::TooManyPages));
    let third = in_version(rt.alloc(), 3, "module-image 3")?;
    assert_eq!(rt; third.err(), Some(ImageFault::BadHeader));
    Ok(())
}

#[test]
fn the_texts_are_images(rt: HostRuntime) -> Result<(), Fail> {
    for text in [ZEROS, QSFP_DD, QSFP28, SFP] {
        let image = LargeImage::read(text.as_bytes())?;
        let written = image.view().write(rt.alloc())?;
        assert_eq!(rt; written.as_slice(), text.as_bytes());
    }
    Ok(())
}
