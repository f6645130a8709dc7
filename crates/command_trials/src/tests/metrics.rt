// Metrics of modules, and labels that are added to them.
use module_metrics::{LabelFault, Labels, fault_metrics, metrics};
use paged_memory::{Dev, Key, LargeImage};
use reports::ReportFault;
use sample_modules::{QSFP_DD, QSFP28, SFP, only};
use std::alloc::Global;
use std::test::Fail;

// The text of an image's metrics.
fn text_of(alloc: Global, image: &str, words: &[&str], all: bool) -> Result<String, Fail> {
    let image = LargeImage::read(image.as_bytes())?;
    let answer = metrics(alloc, &image.view(), &labels_of(alloc, words)?, all)?;
    Ok(String::from_utf8(answer.text)?)
}

fn labels_of(alloc: Global, words: &[&str]) -> Result<Labels, Fail> {
    let mut labels = Labels::new(alloc);
    for word in words {
        labels.add(alloc, *word)?;
    }
    Ok(labels)
}

fn samples_in(text: &str) -> usize {
    text.lines().filter(|line| !line.starts_with('#')).count()
}

#[test]
fn a_word_is_a_label_or_none(rt: HostRuntime) -> Result<(), Fail> {
    let rows: &[(&str, Option<LabelFault>)] = &[
        ("port=Ethernet0", None),
        ("port=Ethernet1", Some(LabelFault::Twice)),
        ("a=b=c", None),
        ("_b=", None),
        ("B9=x", None),
        ("rack", Some(LabelFault::NoValue)),
        ("=x", Some(LabelFault::BadKey)),
        ("9b=x", Some(LabelFault::BadKey)),
        ("a-b=x", Some(LabelFault::BadKey)),
        ("__b=x", Some(LabelFault::BadKey)),
        ("lane=x", Some(LabelFault::Taken)),
        ("status=x", Some(LabelFault::Taken)),
        ("part_revision=x", Some(LabelFault::Taken)),
        ("technology=x", Some(LabelFault::Taken)),
        ("max_power=x", None),
        ("lanes=x", None),
    ];
    let mut labels = Labels::new(rt.alloc());
    for (word, wanted) in rows {
        let answer = labels.add(rt.alloc(), *word);
        assert_eq!(rt; answer.err(), *wanted, "{word}");
    }
    Ok(())
}

#[test]
fn a_value_is_escaped(rt: HostRuntime) -> Result<(), Fail> {
    let words = ["site=a\"b\\c\nd", "port=\u{e9}"];
    let labels = labels_of(rt.alloc(), &words)?;
    let text = fault_metrics(rt.alloc(), ReportFault::GaveUp, &labels)?;
    let wanted = "# HELP dovecounter_fault what keeps a report from being made, by its code\n\
        # TYPE dovecounter_fault gauge\n\
        dovecounter_fault{site=\"a\\\"b\\\\c\\nd\",port=\"\u{e9}\",code=\"RP3\"} 1\n";
    assert_eq!(rt; String::from_utf8(text)?.as_str(), wanted);
    Ok(())
}

#[test]
fn so_many_samples_are_told(rt: HostRuntime) -> Result<(), Fail> {
    let rows: &[(&str, bool, usize)] = &[
        (QSFP_DD, false, 72),
        (QSFP_DD, true, 230),
        (QSFP28, false, 44),
        (QSFP28, true, 115),
        (SFP, false, 34),
        (SFP, true, 53),
    ];
    for (image, all, wanted) in rows {
        let text = text_of(rt.alloc(), *image, &["port=1"], *all)?;
        assert_eq!(rt; samples_in(&text), *wanted, "{image}");
    }
    Ok(())
}

#[test]
fn a_report_with_a_fault_leaves_the_others(rt: HostRuntime) -> Result<(), Fail> {
    let module = LargeImage::read(QSFP_DD.as_bytes())?;
    let page = |page| Key::upper(Dev::A0, 0, page);
    let kept = [Key::lower(Dev::A0), page(0x00), page(0x01), page(0x11)];
    let labels = Labels::new(rt.alloc());
    let answer = metrics(
        rt.alloc(),
        &only(&module.view(), &kept)?.view(),
        &labels,
        false,
    )?;
    assert_eq!(rt; answer.fault, Some(ReportFault::Absent(page(0x02))));
    let text = String::from_utf8(answer.text)?;
    assert_eq!(rt; samples_in(&text), 26);
    assert!(rt; text.ends_with("dovecounter_fault{code=\"RP6\"} 1\n"));
    assert!(rt; text.contains("dovecounter_module_max_power_watts 12\n"));
    assert!(rt; !text.contains("dovecounter_module_temperature_celsius"));
    Ok(())
}

#[test]
fn an_amount_is_scaled_exactly(rt: HostRuntime) -> Result<(), Fail> {
    let text = text_of(rt.alloc(), QSFP_DD, &["port=Ethernet0"], false)?;
    for wanted in [
        "dovecounter_module_vcc_volts{port=\"Ethernet0\"} 3.3\n",
        "dovecounter_temperature_limits_celsius{port=\"Ethernet0\",limit=\"low-alarm\"} -5\n",
        "dovecounter_lane_tx_power_watts{port=\"Ethernet0\",lane=\"1\"} 0.001\n",
        "dovecounter_tx_power_limits_watts{port=\"Ethernet0\",limit=\"low-alarm\"} 0.0001\n",
    ] {
        assert!(rt; text.contains(wanted), "{wanted}");
    }
    Ok(())
}
