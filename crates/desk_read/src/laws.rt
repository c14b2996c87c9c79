//! Laws of the commands of lines.

ghost use Rattle.std.specs.Prelude.{◌≡◌, ◌++◌, ℕ, List, [], ◌∷◌, Option, None, codes, false, map, option_to_list};
ghost use Rattle.std.specs.List.{AllByRecursion, flat_map};
ghost use Rattle.desk_read.specs.declared.command.Command.TheVariants.{Unclosed};
ghost use Rattle.desk_read.specs.declared.head.Head.TheVariants.{Opens};
ghost use Rattle.desk_read.specs.declared.head.Opening.{Opening};
ghost use Rattle.desk_read.specs.Heads.{head_of};
ghost use Rattle.desk_read.specs.Commands.{block_command, commands_of, is_end};
ghost use Rattle.desk_read.specs.Taking.{OpenBlock, Taken, TakesInTurn, commands_from};

/// A block goes to the first line that is `.` alone: its text is the lines before that one, each ended
/// by LF, and then come the commands of the lines behind it. With no such line it is `Unclosed`, and
/// nothing comes behind it.
pub fn blocks_are_whole()
    ensures ended { (how : Opening) (first : List ℕ) (block lines : List (List ℕ)) → head_of first ≡ Opens how →
        AllByRecursion (λ line. is_end line ≡ false) block →
        commands_of (first ∷ block ++ codes "." ∷ lines) ≡
        block_command how (flat_map (λ line. line ++ 10 ∷ []) block) ∷ commands_of lines }
    ensures unclosed { (how : Opening) (first : List ℕ) (block : List (List ℕ)) → head_of first ≡ Opens how →
        AllByRecursion (λ line. is_end line ≡ false) block →
        commands_of (first ∷ block) ≡ Unclosed ∷ [] }
{}

/// The answers to lines that are taken in turn from the start, and then that to their end, are the
/// commands of the lines.
pub fn answers_are_the_commands()
    ensures all { (lines : List Taken) (last : Option OpenBlock) → TakesInTurn None lines last →
        flat_map (λ taken. option_to_list taken.answer) lines ++ commands_from last [] ≡
        commands_of (map (λ taken. taken.line) lines) }
{}
