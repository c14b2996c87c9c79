//! Laws of the definitions.

ghost use Rattle.std.specs.Prelude.{◌≡◌, List, ℕ, Some, length};
ghost use Rattle.std.specs.List.{sum};
ghost use Rattle.rtl_bits.specs.declared.bit.Bit.{Bit};
ghost use Rattle.sim_text.specs.Digits.{AreDigits};
ghost use Rattle.sim_text.specs.Lines.{line_words, step_line, step_of, words_of};
ghost use Rattle.sim_text.specs.Ports.{AreWidths};

/// A line that is written of bits 0, 1, x and z is read as these bits, and the words of a line that is
/// read are those that are written of its bits.
pub fn written_lines_are_read()
    ensures written { (widths : List ℕ) (bits : List Bit) → AreWidths widths → length bits ≡ sum widths →
        AreDigits bits →
        step_of widths (step_line widths bits) ≡ Some bits }
    ensures read { (widths line : List ℕ) (bits : List Bit) →
        step_of widths line ≡ Some bits → words_of line ≡ line_words widths bits }
{}
