ghost use Rattle.std.specs.Prelude.{Some};
ghost use Rattle.command_line.specs.InactivePaths.{inactive_text};

use plan_certificate::Path;
use std::fmt;

/// A kept path that is not active, by which provisioning can't end well.
#[derive(Clone, Copy)]
pub struct InactivePath(pub Path);

/// One line.
impl fmt::Display for InactivePath {
    ghost output = { λ inactive. Some (inactive_text inactive.0) };

    #[tactic(auto, unfolding(crate::specs::InactivePaths::inactive_text))]
    fn fmt<W: fmt::Write>(&self, f: &mut fmt::Formatter<W>) -> fmt::Result {
        let Path { app, host, media } = self.0;
        writeln!(
            f,
            "cmisctl: keep {app} {host} {media}: this data path is not in the Active Control Set of the image, so provisioning takes down lanes that are up and then ends in a fault: keep only data paths that are active (docs/bus.md)"
        )
    }
}
