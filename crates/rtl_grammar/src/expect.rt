//! What a grammar's place expects.

/// A place in the grammar: what is expected there.
#[derive(Clone, Copy, Debug, PartialEq, Eq)]
pub enum Expect {
    /// Where a text begins: an end of line, or the first statement of a file.
    Start,
    /// Where the first statement of a file stands: `autoidx`, or a module, or the end.
    FileHead,
    /// The number behind `autoidx`.
    AutoidxNumber,
    /// The modules of a file, up to its end.
    Modules,
    /// The module behind its attributes, and the modules behind it.
    NextModule,
    /// The end of a statement.
    EndOfLine,
    /// The name of an attribute.
    AttributeName,
    /// The value of an attribute, and the end of its line.
    AttributeValue,
    /// The name of a module, and its statements.
    ModuleName,
    /// The statements of a module, up to its end.
    Body,
    /// The item behind its attributes, and the statements behind it.
    NextItem,
    /// The name of a parameter of a module.
    ParameterName,
    /// Its value, or the end of the line where it has none.
    ParameterValue,
    /// The options of a wire, up to its name.
    WireOption,
    /// The number behind `width`.
    WireWidth,
    /// The number behind `offset`.
    WireOffset,
    /// The number of a port.
    PortNumber,
    /// The options of a memory, up to its name.
    MemoryOption,
    /// The number behind `width`.
    MemoryWidth,
    /// The number behind `size`.
    MemorySize,
    /// The number behind `offset`.
    MemoryOffset,
    /// The type of a cell.
    CellKind,
    /// The name of a cell, and its lines.
    CellName,
    /// The lines of a cell, up to its end.
    CellBody,
    /// What stands behind `parameter`: `signed`, or the name.
    CellParameter,
    /// The name of a parameter of a cell.
    CellParameterName,
    /// Its value, and the end of the line.
    CellParameterValue,
    /// The name of a pin, and its signal.
    PinName,
    /// What stands behind the signal of a pin: a slice of it, or the end of the line.
    BehindPin,
    /// What stands behind the left signal: a slice of it, or the right signal.
    BehindLeft,
    /// What stands behind the right signal: a slice of it, or the end of the line.
    BehindRight,
    /// The name of a process, and its statements.
    ProcessName,
    /// The assigns and switches of a process, up to its end or its first sync.
    ProcessBody,
    /// The switch behind its attributes.
    NextSwitch,
    /// What stands behind the signal of a switch: a slice of it, or the end of the line and the cases.
    BehindSwitch,
    /// The first case of a switch, or its end.
    Cases,
    /// The case behind its attributes.
    NextCase,
    /// What stands behind `case`: the first pattern, or the end of the line.
    Patterns,
    /// What stands behind a pattern: a slice of it, the next pattern, or the end of the line.
    BehindPattern,
    /// The assigns and switches of a case, and the cases behind it, up to the end of the switch.
    CaseBody,
    /// The switch of a case, or the next case, behind its attributes.
    NextInCase,
    /// The event of a sync, up to the end of the line.
    SyncEvent,
    /// What stands behind the signal of an event: a slice of it, or the end of the line.
    BehindEvent,
    /// The lines of a sync and the syncs behind it, up to the end of the process.
    SyncBody,
    /// The `memwr` line behind its attributes.
    NextWrite,
    /// The memory that a `memwr` line writes, and the address.
    WriteMemory,
    /// What stands behind the address: a slice of it, or the value.
    BehindAddress,
    /// What stands behind the value: a slice of it, or the enable.
    BehindValue,
    /// What stands behind the enable: a slice of it, or the mask.
    BehindEnable,
    /// A signal without its slices.
    Signal,
    /// What stands behind an opening brace: the first signal, or the closing brace.
    Inside,
    /// What stands behind a signal in braces: a slice of it, the next signal, or the closing brace.
    BehindInside,
    /// The first number in brackets.
    Index,
    /// What stands behind it: the closing bracket, or a colon and the second number.
    BehindIndex,
    /// The second number in brackets.
    LowIndex,
    /// The closing bracket behind the second number.
    IndexEnd,
}
