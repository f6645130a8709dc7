// The Applications that a plan uses.
ghost use Rattle.std.specs.Prelude.{◌≡◌, ◌++◌, ◌∷◌, [], OnOk};
ghost use Rattle.code_names.specs.Rows.{meaning_of};
ghost use Rattle.text_lines.specs.Lines.{text_of};
ghost use Rattle.plan_drawing.specs.UsedApps.{app_line, app_lines, interface_text, is_used, unnamed_text};

use crate::columns::push_number;
use applications::{Advert, App};
use code_names::{Name, Table, media_interface_name, name_of};
use plan_certificate::Path;
use std::alloc::AllocError;
use text_lines::HexByte;

/// Adds a line for each Application that a path is of, with the names of its interfaces.
#[tactic(auto, unfolding(crate::specs::UsedApps::app_lines))]
pub fn push_apps(
    out: &mut Vec<u8>,
    media_type: u8,
    advert: &Advert,
    paths: &[Path],
) -> Result<(), AllocError>
    ensures { OnOk result (out.new.items ≡ out.old.items ++ text_of (app_lines media_type paths.now advert.now.apps)) }
{
    for app in advert.apps() {
        if is_used(paths, app) {
            push_app(out, media_type, app)?;
        }
    }
    Ok(())
}

fn is_used(paths: &[Path], app: &App) -> bool
    ensures { result ≡ is_used paths.now app.now }
{
    paths.iter().any(|path| path.app == app.number)
}

#[tactic(auto, unfolding(crate::specs::UsedApps::app_line))]
fn push_app(out: &mut Vec<u8>, media_type: u8, app: &App) -> Result<(), AllocError>
    ensures { OnOk result (out.new.items ≡ out.old.items ++ (app_line media_type app.now ++ 10 ∷ [])) }
{
    out.extend_from_slice(b"app ")?;
    push_number(out, u64::from(app.number))?;
    out.extend_from_slice(b": ")?;
    push_interface(
        out,
        name_of(Table::HostInterfaces, app.host_id),
        app.host_id,
    )?;
    out.extend_from_slice(b" to ")?;
    push_interface(
        out,
        media_interface_name(media_type, app.media_id),
        app.media_id,
    )?;
    out.push(b'\n')?;
    Ok(())
}

fn push_interface(out: &mut Vec<u8>, name: Name, code: u8) -> Result<(), AllocError>
    ensures { OnOk result (out.new.items ≡ out.old.items ++ interface_text (meaning_of name) code) }
{
    match name {
        Name::Known(text) => out.extend_from_slice(text.as_bytes()),
        Name::Reserved | Name::VendorSpecific | Name::Unlisted => push_unnamed(out, name, code),
    }
}

#[tactic(auto, unfolding(crate::specs::UsedApps::unnamed_text))]
fn push_unnamed(out: &mut Vec<u8>, name: Name, code: u8) -> Result<(), AllocError>
    ensures { OnOk result (out.new.items ≡ out.old.items ++ unnamed_text (meaning_of name) code) }
{
    out.extend_from_slice(&HexByte(code).digits())?;
    out.extend_from_slice(b"h (")?;
    out.extend_from_slice(name.text().as_bytes())?;
    out.push(b')')?;
    Ok(())
}
