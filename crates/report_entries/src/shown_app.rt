// How an Application is shown in reports.
ghost use Rattle.std.specs.Prelude.{◌≡◌, Some};
ghost use Rattle.report_entries.specs.AppText.{app_text, kind_text, lanes_text, starts_text, usable_word};

use crate::shown::{Code, LanesCode};
use applications::App;
use std::fmt;

#[derive(Clone, Copy)]
pub struct ShownApp(pub App);

impl fmt::Display for ShownApp {
    ghost output = { λ shown. Some (app_text shown.0) };

    #[tactic(auto, unfolding(crate::specs::AppText::app_text))]
    fn fmt<W: fmt::Write>(&self, f: &mut fmt::Formatter<W>) -> fmt::Result {
        let (kind, lanes, starts) = (ShownKind(self.0), ShownLanes(self.0), ShownStarts(self.0));
        let usable = usable_word(self.0.is_usable());
        write!(f, "{kind} {lanes} {starts} {usable}")
    }
}

#[derive(Clone, Copy)]
struct ShownKind(App);

impl fmt::Display for ShownKind {
    ghost output = { λ shown. Some (kind_text shown.0) };

    #[tactic(auto, unfolding(crate::specs::AppText::kind_text))]
    fn fmt<W: fmt::Write>(&self, f: &mut fmt::Formatter<W>) -> fmt::Result {
        let number = self.0.number;
        let (host, media) = (Code(self.0.host_id), Code(self.0.media_id));
        write!(f, "{number} host {host} media {media}")
    }
}

#[derive(Clone, Copy)]
struct ShownLanes(App);

impl fmt::Display for ShownLanes {
    ghost output = { λ shown. Some (lanes_text shown.0) };

    #[tactic(auto, unfolding(crate::specs::AppText::lanes_text))]
    fn fmt<W: fmt::Write>(&self, f: &mut fmt::Formatter<W>) -> fmt::Result {
        let (host, media) = (self.0.host_lanes, self.0.media_lanes);
        write!(f, "host-lanes {host} media-lanes {media}")
    }
}

#[derive(Clone, Copy)]
struct ShownStarts(App);

impl fmt::Display for ShownStarts {
    ghost output = { λ shown. Some (starts_text shown.0) };

    #[tactic(auto, unfolding(crate::specs::AppText::starts_text))]
    fn fmt<W: fmt::Write>(&self, f: &mut fmt::Formatter<W>) -> fmt::Result {
        let (host, media) = (
            LanesCode(self.0.host_starts),
            LanesCode(self.0.media_starts),
        );
        write!(f, "host-starts {host} media-starts {media}")
    }
}

fn usable_word(usable: bool) -> &'static str
    ensures { result.now ≡ usable_word usable }
{
    if usable { "usable" } else { "unusable" }
}
