// Which lines of a report are beyond a limit.
ghost use Rattle.std.specs.Prelude.{◌≡◌, ◌≤◌, IsTrue, map};
ghost use Rattle.text_lines.specs.Lines.{lines_of};
ghost use Rattle.terminal_text.specs.Alerts.{alert_by, alert_of, flag_alert, is_flag, is_limits_of, is_monitor, is_observable, is_passed, is_raised, limits_of, monitor_alert, observable_alert, is_yes};

use crate::amount::is_beyond;
use crate::words::{MOST_WORDS, word_at, words_in};
use arrayvec::ArrayVec;
use text_lines::split_line;

/// Why a line is colored.
#[derive(Clone, Copy, Debug, PartialEq, Eq)]
pub enum Alert {
    /// An amount is beyond an alarm limit, or such a flag is raised.
    Alarm,
    /// An amount is beyond a warning limit, or any other flag is raised.
    Warning,
}

/// The alert of a line of a report, if there is one.
pub fn alert_of(text: &[u8], line: &[u8]) -> Option<Alert>
    ensures { result ≡ alert_of (lines_of text.now) line.now }
{
    let words = words_in(line);
    let words = words.as_slice();
    if is_flag(words) {
        Some(flag_alert(word_at(words, 1)))
    } else if is_observable(words) {
        observable_alert(words)
    } else if is_monitor(words) {
        monitor_alert(text, words)
    } else {
        None
    }
}

// A raised flag: `flag NAME`, or `flag NAME LANE`.
fn is_flag(words: &[&[u8]]) -> bool
    ensures { result ≡ is_flag (map (λ word. word.now) words.now) }
{
    word_at(words, 0) == b"flag".as_slice() && word_at(words, 1) != b"none".as_slice()
}

fn flag_alert(name: &[u8]) -> Alert
    ensures { result ≡ flag_alert name.now }
{
    if name.ends_with(b"-alarm") {
        Alert::Alarm
    } else {
        Alert::Warning
    }
}

// A line of `observables`, with limits and flags.
fn is_observable(words: &[&[u8]]) -> bool
    ensures { result ≡ is_observable (map (λ word. word.now) words.now) }
{
    words.len() == MOST_WORDS
        && word_at(words, 5) == b"limits".as_slice()
        && word_at(words, 10) == b"flags".as_slice()
}

fn observable_alert(words: &[&[u8]]) -> Option<Alert>
    ensures { result ≡ observable_alert (map (λ word. word.now) words.now) }
{
    alert_by(is_passed(words, 6), is_passed(words, 8))
}

// Whether the amount is beyond the limits at this place and the next, or one of their flags is raised.
#[tactic(auto, unfolding(crate::specs::Alerts::is_passed))]
fn is_passed(words: &[&[u8]], limits: usize) -> bool
    requires { limits ≤ 8 }
    ensures { result ≡ is_passed limits (map (λ word. word.now) words.now) }
{
    is_beyond(
        word_at(words, 3),
        word_at(words, limits),
        word_at(words, limits + 1),
    ) || is_raised(words, limits)
}

fn is_raised(words: &[&[u8]], limits: usize) -> bool
    requires { limits ≤ 8 }
    ensures { result ≡ is_raised limits (map (λ word. word.now) words.now) }
{
    is_yes(word_at(words, limits + 5)) || is_yes(word_at(words, limits + 6))
}

// A line of `monitors`: `NAME AMOUNT UNIT`, or `NAME LANE AMOUNT UNIT`.
fn is_monitor(words: &[&[u8]]) -> bool
    ensures { result ≡ is_monitor (map (λ word. word.now) words.now) }
{
    words.len() == 3 || words.len() == 4
}

#[tactic(auto, unfolding(crate::specs::Alerts::monitor_alert))]
fn monitor_alert(text: &[u8], words: &[&[u8]]) -> Option<Alert>
    requires { IsTrue (is_monitor (map (λ word. word.now) words.now)) }
    ensures { result ≡ monitor_alert (lines_of text.now) (map (λ word. word.now) words.now) }
{
    let amount = word_at(words, words.len() - 2);
    let limits = limits_of(text, word_at(words, 0));
    let limits = limits.as_slice();
    alert_by(
        is_beyond(amount, word_at(limits, 1), word_at(limits, 2)),
        is_beyond(amount, word_at(limits, 3), word_at(limits, 4)),
    )
}

// The words of the line with the limits of this name; none if there is no such line.
fn limits_of<'a>(text: &'a [u8], name: &[u8]) -> ArrayVec<&'a [u8], MOST_WORDS>
    ensures { map (λ word. word.now) result.items ≡ limits_of name.now (lines_of text.now) }
{
    let mut rest = text;
    while let Some((line, after)) = split_line(rest) {
        let words = words_in(line);
        if is_limits_of(name, word_at(words.as_slice(), 0)) {
            return words;
        }
        rest = after;
    }
    ArrayVec::new()
}

fn is_limits_of(name: &[u8], word: &[u8]) -> bool
    ensures { result ≡ is_limits_of name.now word.now }
{
    match word.strip_suffix(b"-limits") {
        Some(begun) => begun == name,
        None => false,
    }
}

fn is_yes(word: &[u8]) -> bool
    ensures { result ≡ is_yes word.now }
{
    word == b"yes".as_slice()
}

fn alert_by(alarm: bool, warning: bool) -> Option<Alert>
    ensures { result ≡ alert_by alarm warning }
{
    if alarm {
        Some(Alert::Alarm)
    } else if warning {
        Some(Alert::Warning)
    } else {
        None
    }
}
