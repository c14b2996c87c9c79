//! Laws of rounds. Each is the contract of a function that does nothing.

ghost use Rattle.std.specs.Prelude.{◌≡◌, ◌≤◌, ℕ};
ghost use Rattle.rtl_ir.specs.Types.{Ports};
ghost use Rattle.rtl_ir.specs.declared.module.Module.{Module};
ghost use Rattle.opt_rounds.specs.Rounds.{opt_of, round_of, rounds_of};

/// The pass ends with the first round that changes nothing.
pub fn rounds_end()
    ensures { (ports : Ports) (n : ℕ) (m : Module) → n ≤ 32 →
        round_of ports (rounds_of ports n m) ≡ rounds_of ports n m → opt_of ports m ≡ rounds_of ports n m }
{}
