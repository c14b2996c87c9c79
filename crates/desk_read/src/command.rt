//! The commands of a session.

use net_model::Order;
use rtl_bits::Text;

/// A command, with what it was given. A block's text is its lines, each ended by one LF.
#[derive(Drop)]
pub enum Command {
    /// `load` and a block: the block's text replaces the design.
    Load(Text),
    /// `edit` and a block: the block's modules replace those of their names, or are put last.
    Edit(Text),
    /// `drop` and the name of a module: the module is taken away.
    Remove(Text),
    /// `script` and all that stands behind that word: it sets the script.
    Script(Text),
    /// `run`: what is not kept is built.
    Run,
    /// `print`: as `run`, then the netlist is written.
    Print,
    /// `show` and the name of a module: its present source is written.
    Show(Text),
    /// `version`: the version of the program is written.
    Version,
    /// `modules`: the names of the modules are written, one a line, in the order of the design.
    Modules,
    /// `ports` and the name of a module: its ports are written, one a line, in the order of their numbers.
    Ports(Text),
    /// `sim source`, the name of a module, maybe `released`, and a block: its present source is run.
    SimSource(SimAsk),
    /// `sim netlist`, the name of a module, maybe `released`, and a block: as `run`, then the module is run in the netlist.
    SimNetlist(SimAsk),
    /// `quit`: the session ends.
    Quit,
    /// A line whose words are not those of a command.
    Bad,
    /// The input ended inside a block.
    Unclosed,
}

/// What a simulation was given.
#[derive(Drop)]
pub struct SimAsk {
    /// The name of the module.
    pub module: Text,
    /// The order of time: `Released` where the line has the word `released` behind the name.
    pub order: Order,
    /// The text of the block, of which each line is a step.
    pub steps: Text,
}
