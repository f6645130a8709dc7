// Images that are read over a bus from windows of modules.
use bus_model::{BusFault, Script, ScriptBus};
use paged_memory::{Dev, Image, Key, LargeImage, Page, SmallImage, Window};
use reports::{ReportFault, fetch_image};
use sample_modules::{QSFP_DD, QSFP28, SFP, only};
use std::alloc::Global;
use std::test::Fail;

// The steps that are made over a window of this image, and what is answered.
fn fetched(
    alloc: Global,
    image: &Image,
    script: &[u8],
    room: usize,
) -> Result<(usize, Result<LargeImage, ReportFault>), Fail> {
    let mut bus = ScriptBus::new(alloc, Window::<16>::of(image)?, Script::read(script)?, room)?;
    let answer = fetch_image(&mut bus);
    Ok((bus.steps().len(), answer))
}

#[test]
fn a_module_is_read_in_so_many_steps(rt: HostRuntime) -> Result<(), Fail> {
    let rows: &[(&str, &[u8], usize)] = &[
        (QSFP_DD, b"", 13),
        (QSFP_DD, b"ok 4\nnack 1\n", 15),
        (QSFP28, b"", 7),
        (SFP, b"", 2),
    ];
    for (text, script, wanted) in rows {
        let (steps, answer) = fetched(
            rt.alloc(),
            &LargeImage::read(text.as_bytes())?.view(),
            script,
            4096,
        )?;
        assert_eq!(rt; steps, *wanted, "{text}");
        assert!(rt; answer.is_ok(), "{text}");
    }
    Ok(())
}

#[test]
fn an_absent_page_is_left_out(rt: HostRuntime) -> Result<(), Fail> {
    let module = LargeImage::read(QSFP_DD.as_bytes())?;
    let page = |page| Key::upper(Dev::A0, 0, page);
    let kept = [Key::lower(Dev::A0), page(0x00), page(0x01), page(0x11)];
    let (steps, answer) = fetched(rt.alloc(), &only(&module.view(), &kept)?.view(), b"", 4096)?;
    assert_eq!(rt; steps, 12);
    let image = answer?;
    assert!(rt; image.view().has(page(0x11)));
    assert!(rt; !image.view().has(page(0x02)));
    Ok(())
}

#[test]
fn page_11h_of_further_banks_is_read(rt: HostRuntime) -> Result<(), Fail> {
    // The code of page 01h, byte 142, and which banks are read of a module that has banks 0 to 2.
    let rows: &[(u8, usize, bool, bool)] = &[
        (0, 13, false, false),
        (1, 17, true, false),
        (2, 22, true, true),
        (3, 13, false, false),
    ];
    for (code, wanted, first, second) in rows {
        let mut module = LargeImage::read(QSFP_DD.as_bytes())?;
        let advert = Key::upper(Dev::A0, 0, 0x01);
        let view = module.view();
        let mut bytes = *view.page(advert).expect(&rt, "page 01h is there").bytes();
        bytes[142 - 128] = bytes[142 - 128] / 4 * 4 + *code;
        module.put(advert, Page::from(bytes))?;
        module.put(Key::upper(Dev::A0, 1, 0x11), Page::from([1; 128]))?;
        module.put(Key::upper(Dev::A0, 2, 0x11), Page::from([2; 128]))?;
        let (steps, answer) = fetched(rt.alloc(), &module.view(), b"", 8192)?;
        assert_eq!(rt; steps, *wanted, "code {code}");
        let image = answer?;
        let has = |bank| image.view().has(Key::upper(Dev::A0, bank, 0x11));
        assert_eq!(rt;
            (has(0), has(1), has(2), has(3)),
            (true, *first, *second, false),
            "code {code}"
        );
    }
    Ok(())
}

#[test]
fn a_module_is_given_up(rt: HostRuntime) -> Result<(), Fail> {
    let module = LargeImage::read(QSFP_DD.as_bytes())?;
    let (steps, answer) = fetched(rt.alloc(), &module.view(), b"", 5)?;
    let full = ReportFault::Bus(BusFault::TraceFull);
    assert_eq!(rt; (steps, answer.err()), (5, Some(full)));
    let (steps, answer) = fetched(rt.alloc(), &SmallImage::new().view(), b"", 5000)?;
    assert_eq!(rt; (steps, answer.err()), (4096, Some(ReportFault::GaveUp)));
    let diagnostics = LargeImage::read(SFP.as_bytes())?;
    let (steps, answer) = fetched(
        rt.alloc(),
        &only(&diagnostics.view(), &[Key::lower(Dev::A0)])?.view(),
        b"",
        5000,
    )?;
    assert_eq!(rt; (steps, answer.err()), (4096, Some(ReportFault::GaveUp)));
    Ok(())
}
