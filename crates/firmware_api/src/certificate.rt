ghost use Rattle.std.specs.Prelude.{◌≡◌, Err, MatchOption};
ghost use Rattle.plan_certificate.specs.Plans.{IsAdmissible};
ghost use Rattle.firmware_api.specs.Halves.{advert_of, conventions_of};
ghost use Rattle.firmware_api.specs.Plans.{plan_refusal};
ghost use Rattle.firmware_api.specs.Statuses.{status_of};
ghost use Rattle.firmware_api.specs.WrittenCertificates.{IsCertificatePut, IsTextPut};

use crate::half::{HalfBytes, conventions_of, read_advert_under};
use crate::planning::kept_plan;
use crate::status::{DONE, TOO_SMALL};
use applications::{Advert, AppWeights};
use lane_planner::put_certificate;
use plan_certificate::{Path, Plan};

/// Puts the text of the certificate of the plan that `dovecounter_plan` gives into `buffer`, and its length into
/// `text_length`, which it also does if the buffer is too small.
#[unsafe(no_mangle)]
pub extern "C" fn dovecounter_certificate(
    halves: &[HalfBytes],
    paired: u8,
    counts_by_id: u8,
    weights: &[u32; 256],
    stay: u32,
    kept: &[Path],
    buffer: &mut [u8],
    text_length: &mut usize,
) -> u32
    ensures { MatchOption (plan_refusal halves.now (conventions_of paired counts_by_id stay) kept.now)
        (IsCertificatePut (advert_of halves.now (conventions_of paired counts_by_id stay)) weights.now stay kept.now buffer.old result buffer.new text_length.new)
        (λ refusal. (result ≡ status_of refusal) × (buffer.new ≡ buffer.old) × (text_length.new ≡ text_length.old)) }
{
    let advert = match read_advert_under(conventions_of(paired, counts_by_id, stay), halves) {
        Ok(advert) => advert,
        Err(status) => return status,
    };
    let kept = match kept_plan(&advert, kept) {
        Ok(kept) => kept,
        Err(status) => return status,
    };
    let room = buffer.len();
    *text_length = put_text(&advert, weights, stay, &kept, buffer);
    if room < *text_length { TOO_SMALL } else { DONE }
}

// Not inlined, or the stack would hold the planner's tables while the advertisement is read.
#[inline(never)]
fn put_text(
    advert: &Advert,
    weights: &[u32; 256],
    stay: u32,
    kept: &Plan,
    buffer: &mut [u8],
) -> usize
    requires { IsAdmissible advert.now kept.now }
    ensures { IsTextPut advert.now weights.now stay kept.now buffer.old buffer.new result }
{
    put_certificate(
        buffer,
        advert,
        &AppWeights::by_host(advert, weights, stay),
        kept,
    )
}
