//! What holds of reports over a bus, and of the names in details. The functions are theorems: their contracts say it, and their
//! bodies are empty.

ghost use Rattle.reports.specs.SameReports.{FetchedReportsSame};
ghost use Rattle.reports.specs.UniqueDetails.{DetailsHaveUniqueKeys};

/// Over a scripted bus with a new window of an image, whatever the script refuses or cuts short: the image that
/// `fetch_image` answers has the reports of the window's image. Their faults are the same, and if there is none,
/// what they say: the entries, of which both text and JSON are made.
pub fn what_is_fetched_has_the_reports_of_the_module()
    ensures { FetchedReportsSame }
{}

/// No key stands twice in what the rows of a module's details say.
#[tactic(auto, using(crate::proofs::UniqueDetails::details_have_unique_keys))]
pub fn no_detail_has_a_key_twice()
    ensures { DetailsHaveUniqueKeys }
{}
