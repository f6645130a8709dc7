//! What holds of the amounts that reports show, and of statistics that are read over a bus. Each function is a theorem: its contract says it, and its body is empty.
ghost use Rattle.observable_reports.specs.SameObservables.{MonitorsSame, ObservablesWhole};
ghost use Rattle.observable_reports.specs.SameStatistics.{AdvertisedRead, ObservedReportsSame, StatisticsSame, StatisticsWhole};
ghost use Rattle.observable_reports.specs.WrittenAmounts.{EachAmountIsWritten, EachWordIsANumber};

/// The text of an amount writes exactly that number, or, if it has no end in decimal, that number rounded down to thousandths.
#[tactic(auto, using(crate::proofs::ExactTexts::each_is_written))]
pub fn each_amount_is_written()
    ensures { EachAmountIsWritten }
{}

/// What a word amounts to is written as a number, and not as its parts.
#[tactic(auto, using(crate::proofs::WordNumbers::each_is_a_number))]
pub fn each_word_is_a_number()
    ensures { EachWordIsANumber }
{}

/// Over a scripted bus with a new window of an image, whatever the script refuses or cuts short: each page of statistics, or
/// of a further bank, that `fetch_observables` answers is as in the window's image.
pub fn statistics_are_read_as_the_module_has_them()
    ensures { StatisticsSame }
{}

/// So are the reports of what it answers, whatever was refused.
pub fn statistics_change_no_report()
    ensures { ObservedReportsSame }
{}

/// Over a bus without a script, with a new window of an image: `fetch_observables` answers each page of statistics that a CMIS module advertises
/// and the image has. If the image has no others, each instance that it answers is as the image has it.
pub fn statistics_are_read_whole()
    ensures pages { AdvertisedRead }
    ensures instances { StatisticsWhole }
{}

/// Over a scripted bus with a new window of an image, whatever the script refuses or cuts short: each monitor at a fixed place of what
/// `fetch_observables` answers is as the image has it, of the halves that the module has.
pub fn monitors_are_read_as_the_module_has_them()
    ensures { MonitorsSame }
{}

/// Over a bus without a script, with a new window of an image that has no other statistics than those that its banks advertise: what `observables`
/// and `observables_json` tell of what `fetch_observables` answers, the page that is absent among it, is what they tell of the image.
pub fn observables_are_read_whole()
    ensures { ObservablesWhole }
{}
