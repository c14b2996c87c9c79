//! The causes of errors, each with its hint. Written by `.ci/causes --write` of `python/rtlsyn/causes.json`.

/// A cause of an error. In its words and its hint `@` stands for the type of the cell.
pub(crate) struct Cause {
    pub(crate) name: &'static str,
    /// The types of cells that the row is for, with blanks between them; empty where the type does not matter.
    pub(crate) types: &'static str,
    pub(crate) words: &'static str,
    pub(crate) hint: &'static str,
}

static ERROR_0: [Cause; 1] = [Cause {
    name: "empty",
    types: "",
    words: "the input is empty",
    hint: "give it a text of RTLIL: `rtlsyn design.il`, or `rtlsyn < design.il`",
}];

static ERROR_1: [Cause; 2] = [
    Cause {
        name: "verilog",
        types: "",
        words: "the text is Verilog, and not RTLIL",
        hint: "make RTLIL of it: `yosys -q -p 'read_verilog design.v; hierarchy -auto-top; write_rtlil design.il'`",
    },
    Cause {
        name: "byte",
        types: "",
        words: "no token of RTLIL begins here, or a string has no end",
        hint: "the file is damaged or is no RTLIL: write the text again with `write_rtlil`",
    },
];

static ERROR_2: [Cause; 5] = [
    Cause {
        name: "verilog",
        types: "",
        words: "the text is Verilog, and not RTLIL",
        hint: "make RTLIL of it: `yosys -q -p 'read_verilog design.v; hierarchy -auto-top; write_rtlil design.il'`",
    },
    Cause {
        name: "real-parameter",
        types: "",
        words: "a parameter that is a real number",
        hint: "`setparam -unset NAME`, with the name of the parameter",
    },
    Cause {
        name: "decimal-constant",
        types: "",
        words: "a constant in decimal digits after its width",
        hint: "write it in binary digits, or as an integer alone: `5` is a constant of 32 bits",
    },
    Cause {
        name: "cut-off",
        types: "",
        words: "the text is cut off",
        hint: "write the text again with `write_rtlil`, and see that the disk is not full",
    },
    Cause {
        name: "word",
        types: "",
        words: "this word may not stand here",
        hint: "the file is damaged or is no RTLIL: write the text again with `write_rtlil`",
    },
];

static ERROR_3: [Cause; 1] = [Cause {
    name: "integer",
    types: "",
    words: "an integer past 32 bits, or a wire or a memory of width 0",
    hint: "give the wire a bit, or take it away in Verilog",
}];

static ERROR_4: [Cause; 1] = [Cause {
    name: "twice",
    types: "",
    words: "a name that is given twice",
    hint: "the text was changed by hand: write the text again with `write_rtlil`",
}];

static ERROR_5: [Cause; 1] = [Cause {
    name: "undeclared",
    types: "",
    words: "a wire that is not declared above its use",
    hint: "the text was changed by hand: write the text again with `write_rtlil`",
}];

static ERROR_6: [Cause; 1] = [Cause {
    name: "index",
    types: "",
    words: "an index past the end of its signal",
    hint: "the text was changed by hand: write the text again with `write_rtlil`",
}];

static ERROR_7: [Cause; 3] = [
    Cause {
        name: "connection-width",
        types: "",
        words: "the sides of a connection have unequal widths",
        hint: "the text was changed by hand: write the text again with `write_rtlil`",
    },
    Cause {
        name: "process-width",
        types: "",
        words: "a line of a process has sides of unequal width",
        hint: "the text was changed by hand: write the text again with `write_rtlil`",
    },
    Cause {
        name: "pin-width",
        types: "",
        words: "a pin is wider or narrower than its port",
        hint: "`hierarchy -auto-top`, which cuts or fills it and warns",
    },
];

static ERROR_8: [Cause; 2] = [
    Cause {
        name: "unknown-cell",
        types: "",
        words: "cell type @ is not known",
        hint: "`techmap t:@`: Yosys makes gates of this one",
    },
    Cause {
        name: "missing-module",
        types: "",
        words: "module @ is missing",
        hint: "read the file that has it; or declare it as an empty module, and its outputs are unknown",
    },
];

static ERROR_9: [Cause; 13] = [
    Cause {
        name: "assertion",
        types: "$assert $assume $cover $live $fair",
        words: "cell type @ is not supported: an assertion of a proof",
        hint: "`chformal -remove`",
    },
    Cause {
        name: "check",
        types: "$check",
        words: "cell type @ is not supported: an assertion, as newer versions of Yosys write it",
        hint: "`delete t:$check`",
    },
    Cause {
        name: "print",
        types: "$print",
        words: "cell type @ is not supported: `$display`, as newer versions of Yosys write it",
        hint: "`delete t:$print`",
    },
    Cause {
        name: "scopeinfo",
        types: "$scopeinfo",
        words: "cell type @ is not supported: a note of `flatten` about the hierarchy",
        hint: "`delete t:$scopeinfo`, or `flatten -noscopeinfo`",
    },
    Cause {
        name: "free-choice",
        types: "$anyconst $anyseq $allconst $allseq $initstate $equiv",
        words: "cell type @ is not supported: it is for proof tools",
        hint: "`delete t:@`: what read it reads an unknown bit",
    },
    Cause {
        name: "case-equality",
        types: "$eqx $nex $bweqx",
        words: "cell type @ is not supported: it tells x from 0 and 1",
        hint: "`chtype -set $eq t:$eqx; chtype -set $ne t:$nex`: the result is x where an operand is unknown, as of gates",
    },
    Cause {
        name: "power",
        types: "$pow",
        words: "cell type @ is not supported: a power",
        hint: "write the product in Verilog: `a * a * a`",
    },
    Cause {
        name: "tribuf",
        types: "$tribuf $_TBUF_",
        words: "cell type @ is not supported: a tri-state driver",
        hint: "`tribuf -formal; chformal -remove; opt_clean` in the place of `tribuf`, which gives the wire the value of the driver that is on",
    },
    Cause {
        name: "whole-memory",
        types: "$mem $mem_v2",
        words: "cell type @ is not supported: a memory with its ports in one cell",
        hint: "`memory_unpack`, or leave out `memory_collect` and `memory -nomap`",
    },
    Cause {
        name: "begun-mapping",
        types: "$lut $sop $alu $macc $macc_v2 $fa $lcu",
        words: "cell type @ is not supported: a mapping was begun",
        hint: "leave out the commands that made it (`synth`, `alumacc`, `abc`), or go through to gates with `techmap`",
    },
    Cause {
        name: "fsm-cell",
        types: "$fsm",
        words: "cell type @ is not supported: a state machine in one cell",
        hint: "`fsm_map`, or leave out `fsm`",
    },
    Cause {
        name: "timing-check",
        types: "$specify2 $specify3 $specrule",
        words: "cell type @ is not supported: a timing check of a model",
        hint: "`delete t:@`, or read the model without `-specify`",
    },
    Cause {
        name: "unsupported",
        types: "",
        words: "cell type @ is not supported",
        hint: "`techmap t:@`, where Yosys makes gates of it",
    },
];

static ERROR_10: [Cause; 4] = [
    Cause {
        name: "box-parameter",
        types: "",
        words: "an instance of a black box has a parameter, and no instance may have any",
        hint: "`setparam -unset NAME t:@`, with the name of the parameter: the netlist has the instance without it",
    },
    Cause {
        name: "instance-parameter",
        types: "",
        words: "an instance has a parameter: `hierarchy` was not run",
        hint: "`hierarchy -auto-top`, which makes a module of its own for each list of parameters",
    },
    Cause {
        name: "missing-port",
        types: "",
        words: "an instance connects a port that its module lacks",
        hint: "`hierarchy -auto-top`, which gives the ports their names; else mend the instance in Verilog",
    },
    Cause {
        name: "cell-parameter",
        types: "",
        words: "a parameter or a pin of the cell is missing, unknown or without meaning",
        hint: "the text was changed by hand, or a newer Yosys wrote it: write the text again with `write_rtlil`",
    },
];

static ERROR_11: [Cause; 3] = [
    Cause {
        name: "process-limit",
        types: "",
        words: "a process has a switch signal or a written value of more than 4,096 bits, or a case with more than 4,096 patterns",
        hint: "`proc`: Yosys makes cells of it",
    },
    Cause {
        name: "wide-number",
        types: "$add $sub $neg $mul $div $mod $divfloor $modfloor $lt $le $ge $gt",
        words: "an operand or the result has more than 128 bits, and cell type @ computes with numbers",
        hint: "`techmap t:@`: Yosys makes gates of this one",
    },
    Cause {
        name: "wide-cell",
        types: "",
        words: "an operand or the result has more than 4,096 bits",
        hint: "`techmap t:@`: Yosys makes gates of this one; or write it in parts",
    },
];

static ERROR_12: [Cause; 4] = [
    Cause {
        name: "tristate-output",
        types: "",
        words: "two tri-state drivers of a wire that reaches a port",
        hint: "`tribuf -formal; chformal -remove; opt_clean` on the Verilog, before `write_rtlil`: the wire has the value of the driver that is on; or select by hand",
    },
    Cause {
        name: "tristate",
        types: "",
        words: "two tri-state drivers of an inner wire",
        hint: "`tribuf -logic; opt_clean` on the Verilog, before `write_rtlil`: it makes a selection of them",
    },
    Cause {
        name: "shared-variable",
        types: "",
        words: "two `always` blocks assign to one variable",
        hint: "`proc; opt_clean`, where nothing else reads the variable, as the counter of a loop; else decide in Verilog which block it is",
    },
    Cause {
        name: "drivers",
        types: "",
        words: "a bit has two drivers",
        hint: "decide in Verilog which one it is",
    },
];

static ERROR_13: [Cause; 8] = [
    Cause {
        name: "unused-inout",
        types: "",
        words: "an `inout` port of a library cell that nobody uses",
        hint: "`hierarchy -auto-top -purge_lib`, which takes such cells away",
    },
    Cause {
        name: "inout",
        types: "",
        words: "an `inout` port",
        hint: "three ports in its place, in Verilog: what comes in, what goes out, and when",
    },
    Cause {
        name: "port-number",
        types: "",
        words: "a port number that is below 1 or used twice",
        hint: "the text was changed by hand: write the text again with `write_rtlil`",
    },
    Cause {
        name: "constant-connection",
        types: "",
        words: "a constant is assigned to",
        hint: "mend it in Verilog",
    },
    Cause {
        name: "constant-line",
        types: "",
        words: "a process assigns to a constant",
        hint: "mend it in Verilog",
    },
    Cause {
        name: "constant-pin",
        types: "",
        words: "an output of a cell is connected to a constant",
        hint: "leave the pin open, or mend it in Verilog",
    },
    Cause {
        name: "driven-input",
        types: "",
        words: "an input port is assigned to inside of its module",
        hint: "make it an output, or mend the assignment, in Verilog",
    },
    Cause {
        name: "port",
        types: "",
        words: "an `inout` port, a port number that is used twice, an input that is driven or a constant that is assigned to",
        hint: "mend it in Verilog",
    },
];

static ERROR_14: [Cause; 11] = [
    Cause {
        name: "three-edges",
        types: "",
        words: "a process with three edges: a register with a reset and a set",
        hint: "`proc`, which makes a `$dffsr` of it",
    },
    Cause {
        name: "untested-edges",
        types: "",
        words: "a process with two edges of which neither is tested as a reset, or both",
        hint: "test the reset first, as `if (reset) q <= 0; else q <= d;`, or leave its edge out; `proc` of Yosys says more",
    },
    Cause {
        name: "loading-reset",
        types: "",
        words: "a process whose reset loads a signal, and no constant",
        hint: "`proc`, which makes an `$aldff` of it",
    },
    Cause {
        name: "other-updates",
        types: "",
        words: "the edges of a process take over different values",
        hint: "`proc`; or one register for each edge, in Verilog",
    },
    Cause {
        name: "any-edge",
        types: "",
        words: "an event at any edge of a signal",
        hint: "an event at one edge, or two registers and a selection, in Verilog",
    },
    Cause {
        name: "wide-event",
        types: "",
        words: "an event that is not one bit of a wire",
        hint: "give the event one bit, in Verilog",
    },
    Cause {
        name: "written-memory",
        types: "",
        words: "a process writes a memory at other times than one clock edge",
        hint: "write the memory at one clock edge alone, in Verilog",
    },
    Cause {
        name: "rules",
        types: "",
        words: "a process has rules that do not go together",
        hint: "`proc`",
    },
    Cause {
        name: "self-reading",
        types: "",
        words: "a bit of a process depends on itself",
        hint: "mend it in Verilog, or `proc`",
    },
    Cause {
        name: "start-value",
        types: "",
        words: "a start value is no constant",
        hint: "give it a constant in Verilog",
    },
    Cause {
        name: "process",
        types: "",
        words: "the process cannot be taken: its rules do not go together, a bit depends on itself, or a start value is no constant",
        hint: "`proc`; else mend it in Verilog",
    },
];

static ERROR_15: [Cause; 11] = [
    Cause {
        name: "clocked-read",
        types: "",
        words: "a read port of a memory has a clock",
        hint: "`memory_nordff`, or leave out `memory_dff`",
    },
    Cause {
        name: "start-words",
        types: "",
        words: "start words of a memory are not constant, or a process says which of them are set",
        hint: "`proc`",
    },
    Cause {
        name: "outside-words",
        types: "",
        words: "start words lie outside of the memory",
        hint: "mend it in Verilog",
    },
    Cause {
        name: "two-clocks",
        types: "",
        words: "a memory is written at two clocks",
        hint: "put it into an empty module, and fill that in where memories are",
    },
    Cause {
        name: "open-write",
        types: "",
        words: "a write port of a memory has no clock",
        hint: "write it at a clock edge, in Verilog",
    },
    Cause {
        name: "unknown-memory",
        types: "",
        words: "the memory of the cell or line is not there",
        hint: "the text was changed by hand: write the text again with `write_rtlil`",
    },
    Cause {
        name: "word-width",
        types: "",
        words: "the words of a cell have another width than those of its memory, or its address has no bit or more than 32",
        hint: "the text was changed by hand: write the text again with `write_rtlil`",
    },
    Cause {
        name: "port-numbers",
        types: "",
        words: "a port number of a memory is used twice or is over 65,535",
        hint: "the text was changed by hand: write the text again with `write_rtlil`",
    },
    Cause {
        name: "large-memory",
        types: "",
        words: "a memory of more than 65,536 bits",
        hint: "an empty module in its place; or two memories of half the width; or `proc; memory`, with which Yosys makes registers of it",
    },
    Cause {
        name: "no-words",
        types: "",
        words: "a memory without a word, or with an address below 0",
        hint: "mend it in Verilog",
    },
    Cause {
        name: "memory",
        types: "",
        words: "the memory cannot be taken: it has more than 65,536 bits, or what reads and writes it does not go together",
        hint: "`proc; memory`, with which Yosys makes registers of it",
    },
];

static ERROR_16: [Cause; 1] = [Cause {
    name: "recursion",
    types: "",
    words: "the module is part of itself",
    hint: "mend it in Verilog",
}];

static ERROR_17: [Cause; 2] = [
    Cause {
        name: "long-input",
        types: "",
        words: "the text has more than 67,108,864 bytes",
        hint: "split the design and leave out `flatten`: in each part an empty module may stand for a module of another part",
    },
    Cause {
        name: "limit",
        types: "",
        words: "a limit of the text is passed",
        hint: "split the design and leave out `flatten`; `docs/LIMITS.md` has the limits",
    },
];

static ERROR_18: [Cause; 1] = [Cause {
    name: "no-module",
    types: "",
    words: "the design has no module of this name",
    hint: "names stand in the session as in the text, with their backslash: `show \\top`",
}];

static ERROR_19: [Cause; 1] = [Cause {
    name: "script-word",
    types: "",
    words: "this word of the script is not known or may not stand there",
    hint: "`proc` comes first, `flatten` second, and `docs/PASSES.md` has the words",
}];

static ERROR_20: [Cause; 1] = [Cause {
    name: "over",
    types: "",
    words: "a pass would make the module larger than 1,048,576 cells or 4,194,304 bits",
    hint: "leave out `flatten`: the limit is one of each module",
}];

static ERROR_21: [Cause; 1] = [Cause {
    name: "command",
    types: "",
    words: "the line is no command",
    hint: "`docs/SESSION.md` has the commands",
}];

static ERROR_22: [Cause; 1] = [Cause {
    name: "open-block",
    types: "",
    words: "the input ended inside a block",
    hint: "end the block with a line that is `.` alone",
}];

static ERROR_23: [Cause; 1] = [Cause {
    name: "stimulus",
    types: "",
    words: "the line of the stimulus does not fit the input ports",
    hint: "one word for each input port, in order of port number, with a digit `0`, `1`, `x` or `z` for each bit; `-` where there is no port",
}];

/// The causes of an error; 0 has those of what is no error. The last is for all that no other one fits.
pub(crate) fn causes_of(error: u32) -> &'static [Cause] {
    match error {
        0 => &ERROR_0,
        1 => &ERROR_1,
        2 => &ERROR_2,
        3 => &ERROR_3,
        4 => &ERROR_4,
        5 => &ERROR_5,
        6 => &ERROR_6,
        7 => &ERROR_7,
        8 => &ERROR_8,
        9 => &ERROR_9,
        10 => &ERROR_10,
        11 => &ERROR_11,
        12 => &ERROR_12,
        13 => &ERROR_13,
        14 => &ERROR_14,
        15 => &ERROR_15,
        16 => &ERROR_16,
        17 => &ERROR_17,
        18 => &ERROR_18,
        19 => &ERROR_19,
        20 => &ERROR_20,
        21 => &ERROR_21,
        22 => &ERROR_22,
        23 => &ERROR_23,
        _ => &[],
    }
}
