//! The law of the text of runs.
ghost use Rattle.std.specs.Prelude.{◌≡◌, ℕ, List, Some, map};
ghost use Rattle.std.specs.List.{AllByRecursion};
ghost use Rattle.fx_base.specs.Lines.{text_lines};
ghost use Rattle.fx_elements.specs.Words.{words};
ghost use Rattle.fx_run_text.specs.RunLineText.{IsOneLine, IsRunLine, ended_line, run_line_text};
ghost use Rattle.fx_run_text.specs.RunReading.{line_of};
ghost use Rattle.fx_run_text.specs.RunText.{lines_text};
ghost use Rattle.fx_run_text.specs.declared.run_line.RunLine as of_line;
ghost use Rattle.fx_run_text.specs.declared.text_version.TextVersion.{TextVersion};

/// In either version, the lines of packets, of steps and of the end are read as such, and no other line is.
pub fn run_lines_have_one_text()
    ensures read { (version : TextVersion) (x : of_line.RunLine) → IsRunLine version x
        → line_of version (words (run_line_text version x)) ≡ Some x }
    ensures only { (version : TextVersion) (line : List ℕ) (x : of_line.RunLine)
        → line_of version (words line) ≡ Some x
        → (line ≡ run_line_text version x) × IsRunLine version x }
    // So they are lines of a text.
    ensures one_line { (version : TextVersion) (x : of_line.RunLine) → IsRunLine version x
        → IsOneLine (run_line_text version x) }
    ensures lines { (lines : List (List ℕ)) → AllByRecursion IsOneLine lines
        → text_lines (lines_text lines) ≡ map ended_line lines }
    ensures text { (text : List ℕ) (lines : List (List ℕ)) → text_lines text ≡ map ended_line lines
        → text ≡ lines_text lines }
{}
