//! What holds of certificates and their texts, over all of them.
ghost use Rattle.std.specs.Prelude.{◌≡◌, ℕ, ◌+◌, ◌<◌, List, Result, Ok, true, false, if◌then◌else◌};
ghost use Rattle.text_lines.specs.Lines.{lines_of, text_of};
ghost use Rattle.plan_certificate.specs.declared.fault.CertificateFault.{CertificateFault};
ghost use Rattle.plan_certificate.specs.declared.fault.KeptFault.{KeptFault};
ghost use Rattle.plan_certificate.specs.declared.path.Path.{Path};
ghost use Rattle.applications.specs.ActiveSets.{is_active, nothing_active};
ghost use Rattle.applications.specs.Advertised.{Advertised, with_counts_by_id, with_pairing};
ghost use Rattle.applications.specs.AppWeights.{app_weight, app_weights};
ghost use Rattle.applications.specs.Weights.{ListedWeights};
ghost use Rattle.plan_certificate.specs.Paths.{app_of, is_allowed, path_weight};
ghost use Rattle.plan_certificate.specs.Plans.{IsAdmissible, plan_weight};
ghost use Rattle.plan_certificate.specs.Certificates.{Claim};
ghost use Rattle.plan_certificate.specs.CertificateText.{certificate_lines, IsReadable, IsTextOf};
ghost use Rattle.plan_certificate.specs.CertificateFaults.{IsAnswer};
ghost use Rattle.plan_certificate.specs.KeptText.{IsKeptAnswer};

/// Lines have one answer at most, whatever room there is for states: two certificates share no text, no text has
/// both a certificate and a fault, and the first fault of a text is one.
pub fn one_answer()
    ensures { (states : ℕ) (lines : List (List ℕ)) (a b : Result Claim CertificateFault)
        → IsAnswer states lines a → IsAnswer states lines b → a ≡ b }
{}

/// The written text of a certificate is read as this certificate, if there is room for its states, and as nothing else.
pub fn written_is_read()
    ensures read { (states : ℕ) (certificate : Claim) → IsReadable states certificate
        → IsTextOf states (lines_of (text_of (certificate_lines certificate))) certificate }
    ensures alone { (states : ℕ) (certificate : Claim) (answer : Result Claim CertificateFault) → IsReadable states certificate
        → IsAnswer states (lines_of (text_of (certificate_lines certificate))) answer → answer ≡ Ok certificate }
{}

/// Lines have one answer at most as the text of kept paths, too: one list, or one first fault.
pub fn one_kept_list()
    ensures { (lines : List (List ℕ)) (a b : Result (List Path) KeptFault) → IsKeptAnswer lines a → IsKeptAnswer lines b → a ≡ b }
{}

/// If a module pairs first lanes, the Application and the first host lane of an allowed path tell its first media lane.
pub fn paired_lanes_are_told()
    ensures { (advert : Advertised) (path other : Path) → advert.paired ≡ true → is_allowed advert path ≡ true →
        is_allowed advert other ≡ true → path.app ≡ other.app → path.host ≡ other.host → path ≡ other }
{}

/// A plan that is admissible on a module that pairs first lanes is admissible if it does not.
pub fn paired_plans_are_admissible()
    ensures { (advert : Advertised) (paths : List Path) → IsAdmissible (with_pairing true advert) paths →
        IsAdmissible (with_pairing false advert) paths }
{}

/// A path that the module can carry weighs what its Application weighs, and if it is among the active ones, what staying weighs.
pub fn active_paths_weigh_more()
    ensures { (advert : Advertised) (weights : ListedWeights) (path : Path) → is_allowed advert path ≡ true → 0 < path.app → path.app < 16 →
        path_weight (app_weights advert weights) path ≡ app_weight weights (app_of advert path)
        + (if is_active advert.active (app_of advert path) path.host then weights.stay else 0) }
{}

/// A plan that is admissible by the lane counts of a module's descriptors is admissible, and weighs the same, if the interface IDs
/// imply the counts that are 0. So no best plan weighs less then. If the Active Control Set isn't looked at, so it is with all plans.
pub fn plans_stay_admissible_with_counts_by_id()
    ensures admissible { (media_type : ℕ) (advert : Advertised) (paths : List Path) → IsAdmissible advert paths →
        IsAdmissible (with_counts_by_id media_type advert) paths }
    ensures weight { (media_type : ℕ) (advert : Advertised) (weights : ListedWeights) (paths : List Path) →
        IsAdmissible advert paths →
        plan_weight (app_weights (with_counts_by_id media_type advert) weights) paths ≡ plan_weight (app_weights advert weights) paths }
    ensures any_weight { (media_type : ℕ) (advert : Advertised) (weights : ListedWeights) (paths : List Path) → advert.active ≡ nothing_active →
        plan_weight (app_weights (with_counts_by_id media_type advert) weights) paths ≡ plan_weight (app_weights advert weights) paths }
{}
