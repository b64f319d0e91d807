// What is true of the definitions.
ghost use Rattle.std.specs.Prelude.{◌≡◌, ℕ, List, Some};
ghost use Rattle.script_text.specs.Lines.{IsTextOf};
ghost use Rattle.script_text.specs.Reading.{line_read};
ghost use Rattle.script_text.specs.declared.line.Line as lines;

/// What is read of a line is what it is written for: no line is read otherwise, and each that is written is read. It does
/// nothing.
pub fn reading_is_the_grammar()
    ensures found { (bytes : List ℕ) (line : lines.Line) → line_read bytes ≡ Some line → IsTextOf bytes line }
    ensures again { (bytes : List ℕ) (line : lines.Line) → IsTextOf bytes line → line_read bytes ≡ Some line }
{}
