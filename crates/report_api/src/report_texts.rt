// The reports.
ghost use Rattle.report_api.specs.Answers.{IsAnswered, answer_of};
ghost use Rattle.report_api.specs.ReportTexts.{IsDetails, IsMetrics, IsMetricsOf};

use crate::answer::put;
use crate::fault::Fault;
use module_metrics::{Labels, metrics};
use observable_reports::details_json;
use paged_memory::LargeImage;
use std::alloc::Global;

/// Puts all that the module of an image has about itself, as JSON, into `buffer`, and the text's length into `text_length`, which it
/// also does if the buffer is too small. The image is a text.
#[unsafe(no_mangle)]
pub extern "C" fn dovecounter_details(
    alloc: Global,
    image: &[u8],
    buffer: &mut [u8],
    text_length: &mut usize,
) -> u32
    ensures { IsAnswered (IsDetails image.now) buffer.old text_length.old result buffer.new text_length.new }
{
    put(details_of(alloc, image), buffer, text_length)
}

/// The same of its metrics; of its flags those that are raised, or all if `all` is not 0.
#[unsafe(no_mangle)]
pub extern "C" fn dovecounter_metrics(
    alloc: Global,
    image: &[u8],
    all: u8,
    buffer: &mut [u8],
    text_length: &mut usize,
) -> u32
    ensures { IsAnswered (IsMetrics all image.now) buffer.old text_length.old result buffer.new text_length.new }
{
    put(metrics_of(alloc, all != 0, image), buffer, text_length)
}

fn details_of(alloc: Global, image: &[u8]) -> Result<Vec<u8>, Fault>
    ensures { IsDetails image.now (answer_of result) }
{
    let image = LargeImage::read(image)?;
    Ok(details_json(alloc, &image.view())?)
}

fn metrics_of(alloc: Global, all: bool, image: &[u8]) -> Result<Vec<u8>, Fault>
    ensures { IsMetricsOf all image.now (answer_of result) }
{
    let image = LargeImage::read(image)?;
    Ok(metrics(alloc, &image.view(), &Labels::new(alloc), all)?.text)
}
