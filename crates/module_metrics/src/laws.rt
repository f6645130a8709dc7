//! What holds of all metrics. The functions are theorems: their contracts say it, and their bodies are empty.

ghost use Rattle.module_metrics.specs.UnitLaws.{EachMetricCountsSteps, EachUnitHasItsPrefix};
ghost use Rattle.module_metrics.specs.VdmLaws.{EachTypeHasAMetric, EachWordIsWritten};
ghost use Rattle.module_metrics.specs.Laws.{EachAmountIsTheReports, EachLineIsOne, EachNumberIsWritten, EachValueReadsBack, EveryModulesMetricsAreRight};

/// The metrics of each image, with labels that words have added: names of metrics and of labels are names of the format, help is one line,
/// no metric's name stands twice, no sample has a label twice, and no two samples of a metric have the same labels.
pub fn every_modules_metrics_are_right()
    ensures { EveryModulesMetricsAreRight }
{}

/// Each line of their text is one of the format: of help, of a type, or of a sample.
pub fn each_line_is_one_of_the_format()
    ensures { EachLineIsOne }
{}

/// What is written of a label's value is read between quotes as the value.
pub fn each_value_reads_back()
    ensures { EachValueReadsBack }
{}

/// What is written of a number of parts writes that number, and so does what a report prints of the same thousandths.
pub fn each_number_is_written()
    ensures metrics { EachNumberIsWritten }
    ensures reports { EachAmountIsTheReports }
{}

/// A metric of a monitored value has the unit of the step that the module counts in, and its number is that of these steps. For each unit
/// in which a report prints, it is the unit without the prefix, and counts the thousandths of it that the report prints.
pub fn each_metric_is_what_the_report_prints()
    ensures steps { EachMetricCountsSteps }
    ensures units { EachUnitHasItsPrefix }
{}

/// A metric of VDM writes what a word amounts to, as `observables` prints it, times a power of ten if the metric has another unit. Each type
/// of instance that is decoded has a metric.
#[tactic(auto, using(crate::proofs::VdmNumbers::each_word, crate::proofs::VdmTypes::each_type))]
pub fn each_metric_of_vdm_is_what_was_measured()
    ensures numbers { EachWordIsWritten }
    ensures types { EachTypeHasAMetric }
{}
