//! What holds of all tables. The function is a theorem: its contract says it, and its body is empty.
ghost use Rattle.code_names.specs.Names.{EachCodeHasOneRow};

/// No code has two rows in a table, and so no two names.
pub fn each_code_has_one_row()
    ensures { EachCodeHasOneRow }
{}
