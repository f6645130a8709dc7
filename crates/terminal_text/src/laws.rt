//! What holds of colored reports.
ghost use Rattle.std.specs.Prelude.{◌≡◌, ℕ, List};
ghost use Rattle.std.specs.List.{AllByRecursion};
ghost use Rattle.text_lines.specs.Lines.{text_of};
ghost use Rattle.terminal_text.specs.Colors.{colored};
ghost use Rattle.terminal_text.specs.Escapes.{IsPlain, without_escapes};

/// Without its escape sequences, a colored report is the report.
pub fn colors_take_nothing_away()
    ensures { (lines : List (List ℕ)) → AllByRecursion IsPlain lines → without_escapes (colored (text_of lines)) ≡ text_of lines }
{}
