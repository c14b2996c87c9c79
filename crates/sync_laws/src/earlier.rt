//! What the steps before keep. The law is the contract of a function that does nothing.

ghost use Rattle.rtl_ir.specs.Types.{Ports};
ghost use Rattle.net_model.specs.Proc.Latch.{proc_latch_of};
ghost use Rattle.net_model.specs.Proc.Reset.{proc_reset_of};
ghost use Rattle.net_model.specs.Proc.Start.{proc_tree_of};
ghost use Rattle.sync_laws.specs.Lines.{WritesHaveBits};

use rtl_ir::Module;

/// The steps before leave each line that writes as it is: its address and its word have bits after each of them.
pub fn lines_keep_bits()
    ensures trees { (m : Module) → WritesHaveBits m → WritesHaveBits (proc_tree_of m) }
    ensures resets { (ports : Ports) (m : Module) → WritesHaveBits m → WritesHaveBits (proc_reset_of ports m) }
    ensures latches { (m : Module) → WritesHaveBits m → WritesHaveBits (proc_latch_of m) }
{}
