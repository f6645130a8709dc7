ghost use Rattle.std.specs.Prelude.{◌≡◌};
ghost use Rattle.applications.specs.Advertised.{advertised_by};

use crate::active::ActiveSet;
use crate::app::{App, MAX_APPS};
use crate::conventions::Conventions;
use crate::counts::counted_apps;
use crate::descriptors::apps_in;
use crate::fault::AdvertFault;
use crate::refusal::{refusal, refusal_under};
use arrayvec::ArrayVec;
use field_tables::{LaneSet, field, number};
use paged_memory::Image;
use std::marker::Model;

/// What a module advertises: at most 15 Applications, and the media lanes that it does not support. If that is asked for, also
/// what its Active Control Set has.
#[derive(Debug, Drop)]
pub struct Advert {
    apps: ArrayVec<App, MAX_APPS>,
    unsupported: LaneSet,
    paired: bool,
    active: ActiveSet,
}

impl Model for Advert {
    ghost use Rattle.applications.specs.Advertised.{Advertised, InOrder};
    ghost use Rattle.applications.specs.AdvertisedCode.{coded_advertised};

    ghost Value = { Advertised };

    ghost coded = { coded_advertised };

    ghost view = { λ advert. record { apps = advert.apps.items; unsupported = advert.unsupported; paired = advert.paired; active = advert.active } };

    ghost invariant = { λ advert. InOrder advert.apps.items };
}

impl Advert {
    ghost use Rattle.std.specs.Prelude.{◌≡◌, ◌≤◌, MatchOption, length};
    ghost use Rattle.applications.specs.Advertised.{InOrder, advertised_under, with_counts, with_pairing};
    ghost use Rattle.applications.specs.Refusals.{advert_fault, advert_fault_under};

    /// What the module of an image advertises, with the lane counts that its descriptors say and no pairing.
    pub fn of(image: &Image) -> Result<Advert, AdvertFault>
        ensures { MatchOption (advert_fault image.now) (result ≡ Ok (advertised_by image.now)) (λ fault. result ≡ Err fault) }
    {
        match refusal(image) {
            Some(fault) => Err(fault),
            None => Ok(advertised_by(image)),
        }
    }

    /// What it advertises to a host that reads it by these conventions.
    pub fn under(conventions: Conventions, image: &Image) -> Result<Advert, AdvertFault>
        ensures { MatchOption (advert_fault_under conventions image.now) (result ≡ Ok (advertised_under conventions image.now)) (λ fault. result ≡ Err fault) }
    {
        let media_type = number(image, field!(Cmis MediaType));
        if let Some(fault) = refusal_under(conventions, image) {
            return Err(fault);
        }
        let counted = advertised_by(image).with_counts(conventions.counts_by_id, media_type);
        let active = if conventions.now {
            ActiveSet::of(image)
        } else {
            ActiveSet::nothing()
        };
        Ok(Advert {
            active,
            ..counted.with_pairing(conventions.paired)
        })
    }

    // The same, with the lane counts that the interface IDs imply, or as it stands.
    #[tactic(auto, using(crate::proofs::CountedApps::counted_in_order))]
    fn with_counts(self, by_id: bool, media_type: u8) -> Advert
        ensures { result ≡ with_counts by_id media_type self }
    {
        if !by_id {
            return self;
        }
        let apps = counted_apps(media_type, self.apps.as_slice());
        Advert { apps, ..self }
    }

    /// The same of a module that pairs an Application's first host lanes with its first media lanes in their order, or does not.
    /// `of` takes it that it does not, as no register says so.
    pub fn with_pairing(self, paired: bool) -> Advert
        ensures { result ≡ with_pairing paired self }
    {
        Advert { paired, ..self }
    }

    /// The Applications by rising number.
    pub fn apps(&self) -> &[App]
        ensures apps { result.now ≡ self.now.apps }
        ensures in_order { InOrder result.now }
        ensures few { length result.now ≤ MAX_APPS }
    {
        self.apps.as_slice()
    }

    /// The media lanes that no data path may use.
    pub fn unsupported(&self) -> LaneSet
        ensures { result ≡ self.now.unsupported }
    {
        self.unsupported
    }

    /// Whether a path's first host lane and first media lane have to have the same place among the Application's.
    pub fn is_paired(&self) -> bool
        ensures { result ≡ self.now.paired }
    {
        self.paired
    }

    /// What the Active Control Set has of each host lane, if that was asked for; else nothing.
    pub fn active(&self) -> &ActiveSet
        ensures { result.now ≡ self.now.active }
    {
        &self.active
    }
}

// What the module of an image that is not refused advertises.
#[tactic(auto, using(crate::proofs::Listed::apps_of_in_order))]
fn advertised_by(image: &Image) -> Advert
    ensures { result ≡ advertised_by image.now }
{
    Advert {
        apps: apps_in(image),
        unsupported: LaneSet::from(number(image, field!(Cmis UnsupportedMedia))),
        paired: false,
        active: ActiveSet::nothing(),
    }
}
