// One object of JSON, from its first member to its last line.
ghost use Rattle.std.specs.Prelude.{◌≡◌, ◌∷◌, ◌≤◌, List, Some, IfOk};
ghost use Rattle.json.specs.Json.{document, max_depth};
ghost use Rattle.json.specs.Layout.{pretty};
ghost use Rattle.json.specs.Token.{begin_object};
ghost use Rattle.json.specs.Tree.{depth, json_tokens};
ghost use Rattle.report_entries.specs.EntryJson.{form_members, IsJsonText};
ghost use Rattle.report_entries.specs.JsonTrees.{Member, all_member_tokens, object_of};

use crate::entry_json::put_form;
use crate::json_writer::JsonWriter;
use std::alloc::{AllocError, Global};

/// Begins the object, with the version of the form.
pub fn begin(alloc: Global) -> Result<JsonWriter, AllocError>
    ensures { IfOk result (λ out. out ≡ begin_object ∷ all_member_tokens form_members) }
{
    let mut out = JsonWriter::new(alloc);
    out.begin_object()?;
    put_form(&mut out)?;
    Ok(out)
}

/// Ends it, with its last line.
pub fn end(out: JsonWriter) -> Result<Vec<u8>, AllocError>
    ensures written { (members : List Member) → out ≡ begin_object ∷ all_member_tokens members
        → depth (object_of members) ≤ max_depth
        → IfOk result (λ text. IsJsonText (object_of members) text.items) }
{
    let mut text = lines(out)?;
    text.push(b'\n')?;
    Ok(text)
}

// Without the last LF.
fn lines(out: JsonWriter) -> Result<Vec<u8>, AllocError>
    ensures text { (members : List Member) → out ≡ begin_object ∷ all_member_tokens members
        → IfOk result (λ text. text.items ≡ pretty (json_tokens (object_of members))) }
    ensures reads_back { (members : List Member) → out ≡ begin_object ∷ all_member_tokens members
        → depth (object_of members) ≤ max_depth
        → IfOk result (λ text. document text.items ≡ Some (object_of members)) }
{
    let mut out = out;
    out.end_object()?;
    Ok(out.into_bytes())
}
