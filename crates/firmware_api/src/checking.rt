ghost use Rattle.std.specs.Prelude.{◌≡◌, ◌≢◌};
ghost use Rattle.firmware_api.specs.Checks.{IsJudged, IsShownBest, IsTextJudged, IsTextShownBest, IsTold, judgement_of, reason_number};
ghost use Rattle.firmware_api.specs.Halves.{conventions_of};
ghost use Rattle.firmware_api.specs.Plans.{path_weights};
ghost use Rattle.firmware_api.specs.Statuses.{done};

use crate::half::{HalfBytes, conventions_of, read_advert_under};
use crate::status::{DONE, certificate_status};
use applications::{Advert, AppWeights};
use plan_certificate::{Certificate, Reason, STATES, Verdict, check};

/// What a certificate is worth.
#[repr(C)]
#[derive(Clone, Copy)]
pub struct Judgement {
    /// 0 if it is good, else the number in the code of the first reason against it, as 1 for VR1.
    pub reason: u8,
    /// The number, from 1, of the path, the kept path or the entry that the reason names, else 0.
    pub number: usize,
}

/// Puts into `judgement` what the certificate with this text is worth for the module whose memory has these halves, which
/// pairs first lanes unless `paired` is 0, and whose lane counts of 0 are implied by the interface IDs unless `counts_by_id` is 0. A
/// path that is in the Active Control Set weighs `stay` more; the set is looked at unless that is 0.
#[unsafe(no_mangle)]
pub extern "C" fn dovecounter_check(
    halves: &[HalfBytes],
    paired: u8,
    counts_by_id: u8,
    weights: &[u32; 256],
    stay: u32,
    text: &[u8],
    judgement: &mut Judgement,
) -> u32
    ensures told { IsTold (IsJudged halves.now (conventions_of paired counts_by_id stay) weights.now stay text.now) result judgement.new }
    ensures best { result ≡ done → judgement.new.reason ≡ 0 → IsShownBest halves.now (conventions_of paired counts_by_id stay) weights.now stay text.now }
    ensures refused { result ≢ done → judgement.new ≡ judgement.old }
{
    match read_advert_under(conventions_of(paired, counts_by_id, stay), halves) {
        Ok(advert) => judge(&advert, weights, stay, text, judgement),
        Err(status) => status,
    }
}

// Not inlined, or the stack would hold a certificate while the advertisement is read.
#[inline(never)]
fn judge(
    advert: &Advert,
    weights: &[u32; 256],
    stay: u32,
    text: &[u8],
    judgement: &mut Judgement,
) -> u32
    ensures told { IsTold (IsTextJudged advert.now (path_weights advert.now weights.now stay) text.now) result judgement.new }
    ensures best { result ≡ done → judgement.new.reason ≡ 0 → IsTextShownBest advert.now (path_weights advert.now weights.now stay) text.now }
    ensures refused { result ≢ done → judgement.new ≡ judgement.old }
{
    judge_by(
        advert,
        &AppWeights::by_host(advert, weights, stay),
        text,
        judgement,
    )
}

// The same by what the paths of each Application weigh.
fn judge_by(advert: &Advert, weights: &AppWeights, text: &[u8], judgement: &mut Judgement) -> u32
    ensures told { IsTold (IsTextJudged advert.now weights.now text.now) result judgement.new }
    ensures best { result ≡ done → judgement.new.reason ≡ 0 → IsTextShownBest advert.now weights.now text.now }
    ensures refused { result ≢ done → judgement.new ≡ judgement.old }
{
    let mut certificate = Certificate::<STATES>::blank();
    match certificate.take(text) {
        Ok(()) => {
            let verdict = check(advert, weights, &certificate);
            *judgement = judgement_of(verdict);
            DONE
        }
        Err(fault) => certificate_status(fault),
    }
}

fn judgement_of(verdict: Verdict) -> Judgement
    ensures { result ≡ judgement_of verdict }
{
    match verdict {
        Verdict::Good => Judgement {
            reason: 0,
            number: 0,
        },
        Verdict::Bad(reason, number) => Judgement {
            reason: reason_number(reason),
            number,
        },
    }
}

fn reason_number(reason: Reason) -> u8
    ensures { result ≡ reason_number reason }
{
    match reason {
        Reason::PathNotAllowed => 1,
        Reason::LaneTwice => 2,
        Reason::WeightWrong => 3,
        Reason::NoStart => 4,
        Reason::NotClosed => 5,
        Reason::TooLow => 6,
        Reason::StartNotWeight => 7,
        Reason::KeptNotAdmissible => 8,
        Reason::KeptMissing => 9,
        Reason::PairingDiffers => 10,
    }
}
